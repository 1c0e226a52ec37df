//! Runs the program: arguments and files in, an answer to a writer and an exit status out.

ghost use Rattle.std.specs.Prelude.{ℕ, [], map, Some, ◌≡◌, ◌<◌, List};
ghost use Rattle.ssh_program.specs.CommandLine.{request_of};
ghost use Rattle.ssh_program.specs.Explanations.{explained};
ghost use Rattle.ssh_program.specs.Requests.{Responds, RespondsBy, Answers, line_fault, source_of, words_response};
ghost use Rattle.ssh_program.specs.Spelling.{names_given};
ghost use Rattle.ssh_program.specs.ArgsView.{IfAnswered, request_in_memory, rows_in};
ghost use Rattle.ssh_files.specs.Words.{words_in};
ghost use Rattle.ssh_files.specs.SourceState.{IfTells};
ghost use Rattle.clap.specs.Words.{Row};
ghost use Rattle.ssh_program.specs.Account.{NoneFailed};
ghost use Rattle.ssh_print.specs.Responses.{Response as Shown};
ghost use Rattle.ssh_program.specs.GrantedRuns.{AsksFor, DeniesHost, DeniesLogin, GrantsHost, GrantsLogin};
ghost use Rattle.ssh_program.specs.FingerprintRuns.{AsksByFingerprint, FingerprintAdmitted, FingerprintKeptOut};
ghost use Rattle.ssh_program.specs.KeyRuns.{AsksByKey, AsksOfFiles, ClientAdmitted, ClientKeptOut, HostDistrusted, HostTrusted};
ghost use Rattle.ssh_program.specs.KeyStanding.{AsksForKey, KeyNowhere, KeyStanding};
ghost use Rattle.ssh_program.specs.SignatureRuns.{AsksSignature, SignatureUnvouched, SignatureVouched};
ghost use Rattle.ssh_program.specs.PageRuns.{AsksPage, FilesOnPage};
ghost use Rattle.ssh_program.specs.FileRuns.{AsksLines, AsksNoKey, AsksWith, FileHashed, FileReadable, FileRewritten, FilesReviewed, ShowsAll};
ghost use Rattle.ssh_program.specs.Printing.{WritesAnswer, WritesResponse};
ghost use Rattle.ssh_program.specs.Writing.{AnswersInMemory};
ghost use Rattle.ssh_program.specs.FileNames.{AuditFiles, SshsigQuestion as SshsigAsked};
ghost use Rattle.ssh_program.specs.Texts.{TextPlaces};
ghost use Rattle.ssh_program.specs.declared.subcommand.Subcommand.TheVariants.{Hash, Host, Login, Readable, Review, Rewrite, Trusts};

use crate::admits::{respond_admits, respond_trusts};
use crate::args::Args;
use crate::command::{CommandError, Request, WordsError, parse, respond_fault};
use crate::decisions::{respond_host, respond_login};
use crate::printing::{put_fault, put_made, put_no_memory, put_response};
use crate::review::answer_review;
use crate::rewriting::{respond_hash, respond_readable, respond_rewrite};
use crate::show::{respond_explain, respond_show};
use crate::sink::Sink;
use crate::sshsig::respond_sshsig;
use crate::subcommand::Subcommand;
use ssh_files::{Files, ReadError, read_first_line, read_words};
use ssh_print::Response;
use std::alloc::{AllocError, Global};
use std::convert::AsStr;

/// The response to `explain`.
fn respond_codes(alloc: Global, words: &Args<'_>) -> Result<Response, CommandError>
    ensures { IfAnswered result (λ r. r ≡ explained (names_given (rows_in words.now))) }
{
    Ok(respond_explain(alloc, words)?)
}

/// The response to a request, or the error of its options; `None` for `review`, which writes while
/// it reads.
fn respond_subcommand<F: Files>(
    alloc: Global,
    request: &Request<'_>,
    files: &mut F,
) -> Option<Result<Response, CommandError>>
    ensures { AnswersInMemory request.now.subcommand result (F.source_state files.old)
        (F.source_state files.new)
        (λ s r. RespondsBy (Some (request_in_memory request.now)) s (F.source_state files.new) r) }
{
    let words = &request.words;
    match request.subcommand {
        Subcommand::Show => Some(respond_show(alloc, words, files)),
        Subcommand::Login => Some(respond_login(alloc, words, files)),
        Subcommand::Host => Some(respond_host(alloc, words, files)),
        Subcommand::Sshsig => Some(respond_sshsig(alloc, words, files)),
        Subcommand::Rewrite => Some(respond_rewrite(alloc, words, files)),
        Subcommand::Readable => Some(respond_readable(alloc, words, files)),
        Subcommand::Hash => Some(respond_hash(alloc, words, files)),
        Subcommand::Admits => Some(respond_admits(alloc, words, files)),
        Subcommand::Trusts => Some(respond_trusts(alloc, words, files)),
        Subcommand::Review => None,
        Subcommand::Explain => Some(respond_codes(alloc, words)),
    }
}

/// Writes the answer to a request, and returns the status.
fn answer_request<F: Files, W: Sink>(
    alloc: Global,
    request: &Request<'_>,
    files: &mut F,
    writer: &mut W,
) -> u8
    requires { NoneFailed (W.account writer.old) }
    ensures { IfTells (F.source_state files.old) (λ s. WritesAnswer
        (RespondsBy (Some (request_in_memory request.now)) s (F.source_state files.new))
        (W.account writer.old) (W.account writer.new) result) }
{
    match respond_subcommand(alloc, request, files) {
        None => answer_review(alloc, &request.words, files, writer),
        Some(Ok(response)) => put_response(writer, &response),
        Some(Err(fault)) => put_made(writer, respond_fault(alloc, fault)),
    }
}

/// Writes the answer to arguments, of which there is at least one, and returns the status.
fn answer_words<S: AsStr, F: Files, W: Sink>(
    alloc: Global,
    words: &[S],
    files: &mut F,
    writer: &mut W,
) -> u8
    requires { NoneFailed (W.account writer.old) }
    ensures { IfTells (F.source_state files.old) (λ s. WritesAnswer
        (RespondsBy (request_of (map S.text words.now)) s (F.source_state files.new))
        (W.account writer.old) (W.account writer.new) result) }
{
    match parse(alloc, words) {
        Ok(request) => answer_request(alloc, &request, files, writer),
        Err(fault) => refuse(fault, writer),
    }
}

/// The fault where the first line of standard input gives no arguments: it is past its limit, or
/// cannot be read.
fn line_fault(fault: ReadError) -> WordsError
    ensures { result ≡ line_fault fault }
{
    match fault {
        ReadError::Memory => WordsError::Memory,
        _ => WordsError::Usage,
    }
}

/// Writes the answer to the arguments on this first line of standard input, and returns the status.
/// Only spaces separate them: a CR or a tab belongs to its argument.
fn answer_line<F: Files, W: Sink>(alloc: Global, line: &[u8], files: &mut F, writer: &mut W) -> u8
    requires { NoneFailed (W.account writer.old) }
    ensures { IfTells (F.source_state files.old) (λ s. WritesAnswer
        (RespondsBy (request_of (words_in line.now)) s (F.source_state files.new))
        (W.account writer.old) (W.account writer.new) result) }
{
    match read_words(alloc, line) {
        Ok(words) => answer_words(alloc, words.as_slice(), files, writer),
        Err(AllocError) => put_no_memory(writer),
    }
}

/// Writes the answer to the arguments on the first line of standard input, and returns the status.
fn answer_input<F: Files, W: Sink>(alloc: Global, files: &mut F, writer: &mut W) -> u8
    requires { NoneFailed (W.account writer.old) }
    ensures { IfTells (F.source_state files.old) (λ s. WritesAnswer
        (Responds [] s (F.source_state files.new))
        (W.account writer.old) (W.account writer.new) result) }
{
    match read_first_line(alloc, files) {
        Ok(line) => answer_line(alloc, &line, files, writer),
        Err(fault) => refuse(line_fault(fault), writer),
    }
}

/// Writes the answer to the arguments, and returns the status; if there are none, to those on the
/// first line of standard input.
fn answer<S: AsStr, F: Files, W: Sink>(
    alloc: Global,
    words: &[S],
    files: &mut F,
    writer: &mut W,
) -> u8
    requires { NoneFailed (W.account writer.old) }
    ensures { IfTells (F.source_state files.old) (λ s. (r : Shown) × Answers (map S.text words.now) s (F.source_state files.new) r
        × WritesResponse (W.account writer.old) (W.account writer.new) r result) }
{
    if words.is_empty() {
        answer_input(alloc, files, writer)
    } else {
        answer_words(alloc, words, files, writer)
    }
}

/// Runs the program on the arguments after its own name. If there are none, it takes those of the
/// first line of standard input, which is the file `-`. It writes the answer and returns the
/// status: 0 for granted or done, 1 for denied or something found, 2 for a fault (also of the
/// writer), 3 where OpenSSH may let in a key that no line lets in here. After a failed write
/// nothing more is written. `review` writes the text of each file before it reads the next; any
/// other answer is whole in memory before it is written, a page in marked text.
pub fn run<S: AsStr, F: Files, W: Sink>(
    alloc: Global,
    words: &[S],
    files: &mut F,
    writer: &mut W,
) -> u8
    requires { NoneFailed (W.account writer.old) }
    // If the state of the source is known, the writer took the whole text of an answer, and the
    // status is the answer's. Or a write failed after a proper prefix of the text, and the status
    // is 2. The answer is the defined one, or the fault of memory allocation, or the fault of a
    // read that failed. That of `review` is the texts of the files in their order, then the total;
    // or the texts of the files at the front, then the fault of memory allocation, with status 2.
    ensures answers { IfTells (F.source_state files.old) (λ s. (r : Shown) × Answers (map S.text words.now) s (F.source_state files.new) r
        × WritesResponse (W.account writer.old) (W.account writer.new) r result) }
    // Status 0 of a login is a grant: a line of the trust file admits the offer, all its conditions
    // hold, and the vouch file vouches for all that it rests on. This was printed.
    ensures login { IfTells (F.source_state files.old) (λ s. (rows : List Row)
        (places : TextPlaces) (f : AuditFiles)
        → AsksFor Login (map S.text words.now) s rows places f
        → result ≡ 0
        → (r : Shown) × GrantsLogin rows places f (source_of (map S.text words.now) s) r
        × WritesResponse (W.account writer.old) (W.account writer.new) r result) }
    // Status 1 of a login means that there is no such line: the trust file grants the login at no
    // line, for the cause that was printed.
    ensures login_denied { IfTells (F.source_state files.old) (λ s. (rows : List Row)
        (places : TextPlaces) (f : AuditFiles)
        → AsksFor Login (map S.text words.now) s rows places f
        → result ≡ 1
        → (r : Shown) × DeniesLogin rows places f (source_of (map S.text words.now) s) r
        × WritesResponse (W.account writer.old) (W.account writer.new) r result) }
    // Status 0 of a host's key is a grant too, and no line of the file revokes the key.
    ensures host { IfTells (F.source_state files.old) (λ s. (rows : List Row)
        (places : TextPlaces) (f : AuditFiles)
        → AsksFor Host (map S.text words.now) s rows places f
        → result ≡ 0
        → (r : Shown) × GrantsHost rows places f (source_of (map S.text words.now) s) r
        × WritesResponse (W.account writer.old) (W.account writer.new) r result) }
    // Status 1 of a host's key means that there is no such grant.
    ensures host_denied { IfTells (F.source_state files.old) (λ s. (rows : List Row)
        (places : TextPlaces) (f : AuditFiles)
        → AsksFor Host (map S.text words.now) s rows places f
        → result ≡ 1
        → (r : Shown) × DeniesHost rows places f (source_of (map S.text words.now) s) r
        × WritesResponse (W.account writer.old) (W.account writer.new) r result) }
    // Status 0 of a file signature: it is for the namespace, and it is vouched for over the message.
    ensures signature { IfTells (F.source_state files.old) (λ s. (w : SshsigAsked)
        → AsksSignature (map S.text words.now) s w
        → result ≡ 0
        → (r : Shown) × SignatureVouched w (source_of (map S.text words.now) s) r
        × WritesResponse (W.account writer.old) (W.account writer.new) r result) }
    // Status 1 of a file signature: it is for another namespace, or it is not vouched for.
    ensures signature_denied { IfTells (F.source_state files.old) (λ s. (w : SshsigAsked)
        → AsksSignature (map S.text words.now) s w
        → result ≡ 1
        → (r : Shown) × SignatureUnvouched w (source_of (map S.text words.now) s) r
        × WritesResponse (W.account writer.old) (W.account writer.new) r result) }
    // Status 0 of `admits --key`: a line of one of the named files admits the key of the client.
    ensures admits { IfTells (F.source_state files.old) (λ s. (rows : List Row)
        (names : List (List ℕ))
        → AsksByKey (map S.text words.now) s rows names
        → result ≡ 0
        → ClientAdmitted rows (source_of (map S.text words.now) s)) }
    // Status 1 of `admits --key`: each of the named files is there, and no line of any admits it.
    ensures admits_none { IfTells (F.source_state files.old) (λ s. (rows : List Row)
        (names : List (List ℕ))
        → AsksByKey (map S.text words.now) s rows names
        → result ≡ 1
        → ClientKeptOut rows (source_of (map S.text words.now) s)) }
    // Status 0 of `admits --fingerprint`: a line of one of the named files admits the first key of
    // this fingerprint that the file holds.
    ensures admits_fingerprint { IfTells (F.source_state files.old) (λ s. (rows : List Row)
        (names : List (List ℕ))
        → AsksByFingerprint (map S.text words.now) s rows names
        → result ≡ 0
        → FingerprintAdmitted rows (source_of (map S.text words.now) s)) }
    // Status 1 of `admits --fingerprint`: each of the named files is there. It holds no key of this
    // fingerprint and admits none, or no line of it admits the first one that it holds.
    ensures admits_no_fingerprint { IfTells (F.source_state files.old) (λ s. (rows : List Row)
        (names : List (List ℕ))
        → AsksByFingerprint (map S.text words.now) s rows names
        → result ≡ 1
        → FingerprintKeptOut rows (source_of (map S.text words.now) s)) }
    // Status 0 of `trusts`: a line of one of the named files trusts the key of the host.
    ensures trusts { IfTells (F.source_state files.old) (λ s. (rows : List Row)
        (names : List (List ℕ))
        → AsksOfFiles Trusts (map S.text words.now) s rows names
        → result ≡ 0
        → HostTrusted rows (source_of (map S.text words.now) s)) }
    // Status 1 of `trusts`: each of the named files is there, and none trusts it.
    ensures trusts_none { IfTells (F.source_state files.old) (λ s. (rows : List Row)
        (names : List (List ℕ))
        → AsksOfFiles Trusts (map S.text words.now) s rows names
        → result ≡ 1
        → HostDistrusted rows (source_of (map S.text words.now) s)) }
    // Status 0 of `rewrite`: what was printed is a file that answers every query as the file does.
    ensures rewrite { IfTells (F.source_state files.old) (λ s. (rows : List Row)
        → AsksWith Rewrite (map S.text words.now) s rows
        → result ≡ 0
        → (r : Shown) × FileRewritten rows (source_of (map S.text words.now) s) r
        × WritesResponse (W.account writer.old) (W.account writer.new) r result) }
    // Status 0 of `readable`: what was printed is a file that answers logins as the file does, or
    // the line that decides was left out, and that grants nothing by a line that was left out.
    ensures readable { IfTells (F.source_state files.old) (λ s. (rows : List Row)
        → AsksWith Readable (map S.text words.now) s rows
        → result ≡ 0
        → (r : Shown) × FileReadable rows (source_of (map S.text words.now) s) r
        × WritesResponse (W.account writer.old) (W.account writer.new) r result) }
    // Status 0 of `hash`: what was printed is a file that keeps each grant and each revocation.
    ensures hash { IfTells (F.source_state files.old) (λ s. (rows : List Row)
        → AsksWith Hash (map S.text words.now) s rows
        → result ≡ 0
        → (r : Shown) × FileHashed rows (source_of (map S.text words.now) s) r
        × WritesResponse (W.account writer.old) (W.account writer.new) r result) }
    // Status 0 or 1 of `review` that asks for no key and no page and leaves nothing out: each of the
    // named files is there, and what was printed lists each line by which one of them lets in a login
    // or trusts a host's key.
    ensures review { IfTells (F.source_state files.old) (λ s. (rows : List Row)
        (names : List (List ℕ))
        → AsksOfFiles Review (map S.text words.now) s rows names
        → AsksNoKey rows
        → AsksLines rows
        → ShowsAll rows
        → result < 2
        → (r : Shown) × FilesReviewed rows (source_of (map S.text words.now) s) r
        × WritesResponse (W.account writer.old) (W.account writer.new) r result) }
    // The same of `review --form html`: the page has a section for each of the named files, in their
    // order, with a row for each such line.
    ensures review_page { IfTells (F.source_state files.old) (λ s. (rows : List Row)
        (names : List (List ℕ))
        → AsksOfFiles Review (map S.text words.now) s rows names
        → AsksPage rows
        → result < 2
        → (r : Shown) × FilesOnPage rows (source_of (map S.text words.now) s) r
        × WritesResponse (W.account writer.old) (W.account writer.new) r result) }
    // Status 1 of `review --key`: a line of one of the named files holds the key, or cannot be read
    // and holds it, and the records of these lines were printed.
    ensures review_key { IfTells (F.source_state files.old) (λ s. (rows : List Row)
        (names : List (List ℕ)) (key : List ℕ)
        → AsksOfFiles Review (map S.text words.now) s rows names
        → AsksForKey rows key
        → result ≡ 1
        → (r : Shown) × KeyStanding rows key (source_of (map S.text words.now) s) r
        × WritesResponse (W.account writer.old) (W.account writer.new) r result) }
    // Status 0 of `review --key`: each of the named files is there, and no line of any holds the key.
    ensures review_key_none { IfTells (F.source_state files.old) (λ s. (rows : List Row)
        (names : List (List ℕ)) (key : List ℕ)
        → AsksOfFiles Review (map S.text words.now) s rows names
        → AsksForKey rows key
        → result ≡ 0
        → (r : Shown) × KeyNowhere rows key (source_of (map S.text words.now) s) r
        × WritesResponse (W.account writer.old) (W.account writer.new) r result) }
{
    answer(alloc, words, files, writer)
}

/// The text that is printed where the program's own arguments cannot be read.
fn fault_text<'a>(fault: WordsError) -> &'a [u8]
    ensures { result.now ≡ (words_response fault).text }
{
    match fault {
        WordsError::Usage => b"fault usage\n",
        WordsError::Memory => b"fault A8\n",
    }
}

/// Prints that the program's own arguments cannot be read, because one is not UTF-8 or memory could
/// not be allocated, and returns the status 2.
pub fn refuse<W: Sink>(fault: WordsError, writer: &mut W) -> u8
    requires { NoneFailed (W.account writer.old) }
    ensures { WritesResponse (W.account writer.old) (W.account writer.new) (words_response fault) result }
{
    put_fault(writer, fault_text(fault))
}
