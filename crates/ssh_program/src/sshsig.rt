//! The response to `sshsig`: a file signature (PROTOCOL.sshsig), its message, and the signatures
//! that a vouch file lists.

ghost use Rattle.std.specs.Prelude.{◌≡◌, ◌≤◌, ◌∷◌, [], IfOk, length, Some, false, true};
ghost use Rattle.ssh_bodies.specs.Sshsig.{IsSshsig};
ghost use Rattle.ssh_bodies.specs.SshsigOf.{sshsig_of};
ghost use Rattle.ssh_program.specs.Digests.{IsDigest, answer_where, digest_bytes, signed_by_digest, text_by_digest};
ghost use Rattle.ssh_files.specs.Loading.{LoadsPart};
ghost use Rattle.ssh_files.specs.Parts.{after_whole};
ghost use Rattle.ssh_files.specs.SourceState.{IfTells, bytes_at, dash};
ghost use Rattle.ssh_offers.specs.FileSignatureView.{sshsig_claim_of};
ghost use Rattle.std.specs.Str.{bytes_eq};
ghost use Rattle.ssh_program.specs.Audits.{or_vouch_fault};
ghost use Rattle.ssh_program.specs.FileNamesView.{question_of};
ghost use Rattle.ssh_program.specs.Sshsigs.{RespondsToSshsig, Signs};
ghost use Rattle.ssh_program.specs.Responding.{SignsBody, SignsClaim, SignsDigest, SignsMessage, SignsVouched};
ghost use Rattle.ssh_program.specs.Vouchings.{ByVouching};
ghost use Rattle.ssh_program.specs.ArgsView.{IfAnswered, rows_in};
ghost use Rattle.ssh_print.specs.ResponseView.{response};
ghost use Rattle.ssh_files.specs.VouchFile.{vouched_of};
ghost use Rattle.ssh_text.specs.Text.{file_limit};

use crate::admits::SshsigQuestion;
use crate::args::Args;
use crate::audit::unread;
use crate::command::CommandError;
use crate::vouching::{Vouches, Vouching, respond_signed};
use sha2::{Sha256, Sha512};
use ssh_bodies::{HashName, SshsigView};
use ssh_files::{
    Files, ReadError, read_digest, read_front, read_past, read_vouch_file, seek_vouched,
};
use ssh_keys::MAX_BLOB_LEN;
use ssh_offers::{AuditError, Items, Signed, SshsigClaimView};
use ssh_print::{Response, sshsig_response, vouch_fault};
use ssh_text::Bytes;
use ssh_trust::SshsigAnswer;
use ssh_wire::put_string;
use std::alloc::{AllocError, Global};

/// The digest of a message, by one of the two hashes of PROTOCOL.sshsig.
#[derive(Clone, Copy)]
pub enum MessageDigest {
    Sha256([u8; 32]),
    Sha512([u8; 64]),
}

impl MessageDigest {
    fn as_slice(&self) -> &[u8]
        ensures bytes { result.now ≡ digest_bytes self.now }
        ensures short { length result.now ≤ 64 }
    {
        match self {
            MessageDigest::Sha256(bytes) => bytes,
            MessageDigest::Sha512(bytes) => bytes,
        }
    }
}

/// The bytes that are signed for a message with this digest (PROTOCOL.sshsig).
#[tactic(auto, unfolding(crate::specs::Digests::text_by_digest))]
fn signed_text(
    alloc: Global,
    view: &SshsigView<'_>,
    digest: &MessageDigest,
) -> Result<Vec<u8>, AllocError>
    requires { IsSshsig (sshsig_of view.now) }
    ensures { IfOk result
        (λ signed. signed.items ≡ text_by_digest (sshsig_of view.now) (digest_bytes digest.now)) }
{
    let mut signed = Vec::from_slice(alloc, b"SSHSIG")?;
    put_string(&mut signed, view.namespace)?;
    put_string(&mut signed, view.reserved)?;
    put_string(&mut signed, view.hash.name())?;
    put_string(&mut signed, digest.as_slice())?;
    Ok(signed)
}

/// The signature to verify: the key and signature of the SSHSIG body, over a message with this
/// digest.
#[tactic(auto, unfolding(crate::specs::Digests::signed_by_digest))]
pub fn digest_signed(
    alloc: Global,
    claim: &SshsigClaimView<'_>,
    digest: &MessageDigest,
) -> Result<Signed, AllocError>
    ensures { IfOk result (λ signed.
        signed ≡ signed_by_digest (sshsig_claim_of claim.now) (digest_bytes digest.now)) }
{
    let view = &claim.file_signature;
    Ok(Signed {
        key: Bytes::new(view.key_blob.to_vec(alloc)?),
        message: Bytes::new(signed_text(alloc, view, digest)?),
        signature: Bytes::new(view.signature_blob.to_vec(alloc)?),
    })
}

/// The digest of the message in the file of this name, hashed while it is read, without memory
/// allocation.
pub fn read_message<F: Files>(
    files: &mut F,
    hash: HashName,
    name: &str,
) -> Result<MessageDigest, ReadError>
    ensures { IfTells (F.source_state files.old) (λ s.
        LoadsPart (IsDigest hash) name.now (bytes_at s name.now) (after_whole s name.now) s
        (F.source_state files.new) result) }
{
    match hash {
        HashName::Sha256 => match read_digest::<Sha256, F>(files, name) {
            Ok(bytes) => Ok(MessageDigest::Sha256(bytes)),
            Err(fault) => Err(fault),
        },
        HashName::Sha512 => match read_digest::<Sha512, F>(files, name) {
            Ok(bytes) => Ok(MessageDigest::Sha512(bytes)),
            Err(fault) => Err(fault),
        },
    }
}

fn answer_by(evidence: Items<Signed>, is_vouched: bool) -> SshsigAnswer
    ensures { result ≡ answer_where is_vouched evidence }
{
    if is_vouched {
        SshsigAnswer::Vouched { evidence }
    } else {
        SshsigAnswer::NotVouched { evidence }
    }
}

/// The answer to one signature, by whether it is vouched for.
pub fn answer_one(
    alloc: Global,
    signed: Signed,
    is_vouched: bool,
) -> Result<SshsigAnswer, AllocError>
    ensures { IfOk result (λ answer. answer ≡ answer_where is_vouched (signed ∷ [])) }
{
    let mut evidence = Vec::new(alloc);
    evidence.push(signed)?;
    Ok(answer_by(Items::from_vec(evidence), is_vouched))
}

/// The response by the digest of the message. If the namespace is another one, the vouch file is
/// not searched.
fn respond_digest<F: Files>(
    alloc: Global,
    question: &SshsigQuestion<'_>,
    vouching: &Vouching<'_>,
    claim: &SshsigClaimView<'_>,
    digest: &MessageDigest,
    files: &mut F,
) -> Result<Response, AllocError>
    ensures { IfTells (F.source_state files.old) (λ s. IfOk result (λ r.
        ByVouching (SignsDigest (question_of question.entry.now) (sshsig_claim_of claim.now)
        (digest_bytes digest.now)) vouching.entry.now s (F.source_state files.new)
        (response r))) }
{
    if claim.file_signature.namespace != question.namespace.as_bytes() {
        return sshsig_response(alloc, Ok(SshsigAnswer::OtherNamespace));
    }
    let signed = digest_signed(alloc, claim, digest)?;
    respond_signed(alloc, vouching, signed, files)
}

/// The response after the body was read and is in order: the message is hashed.
fn respond_claim<F: Files>(
    alloc: Global,
    question: &SshsigQuestion<'_>,
    vouching: &Vouching<'_>,
    claim: &SshsigClaimView<'_>,
    files: &mut F,
) -> Result<Response, AllocError>
    ensures { IfTells (F.source_state files.old) (λ s. IfOk result (λ r.
        ByVouching (SignsClaim (question_of question.entry.now) (Ok (sshsig_claim_of claim.now)))
        vouching.entry.now s (F.source_state files.new) (response r))) }
{
    match read_message(files, claim.file_signature.hash, question.message) {
        Ok(digest) => respond_digest(alloc, question, vouching, claim, &digest, files),
        Err(fault) => unread(alloc, question.message, fault),
    }
}

/// The response after the body was refused. The message is read all the same, since a message that
/// cannot be read is reported before the refusal.
fn respond_refused<F: Files>(
    alloc: Global,
    question: &SshsigQuestion<'_>,
    vouching: &Vouching<'_>,
    refusal: AuditError,
    files: &mut F,
) -> Result<Response, AllocError>
    ensures { IfTells (F.source_state files.old) (λ s. IfOk result (λ r.
        ByVouching (SignsClaim (question_of question.entry.now) (Err refusal)) vouching.entry.now s
        (F.source_state files.new) (response r))) }
{
    match read_past(files, question.message) {
        Ok(()) => sshsig_response(alloc, Err(refusal)),
        Err(fault) => unread(alloc, question.message, fault),
    }
}

/// The response after the body's bytes were read.
fn respond_body<F: Files>(
    alloc: Global,
    question: &SshsigQuestion<'_>,
    vouching: &Vouching<'_>,
    body: &[u8],
    files: &mut F,
) -> Result<Response, AllocError>
    ensures { IfTells (F.source_state files.old) (λ s. IfOk result (λ r.
        ByVouching (SignsMessage (question_of question.entry.now) body.now) vouching.entry.now s
        (F.source_state files.new) (response r))) }
{
    match SshsigClaimView::read(body) {
        Ok(claim) => respond_claim(alloc, question, vouching, &claim, files),
        Err(refusal) => respond_refused(alloc, question, vouching, refusal, files),
    }
}

/// The response after the vouch file was read. A body has the length limit of a blob; of a longer
/// one only one byte past the limit is stored, which is enough to refuse it.
fn respond_vouched<F: Files>(
    alloc: Global,
    question: &SshsigQuestion<'_>,
    vouching: &Vouching<'_>,
    files: &mut F,
) -> Result<Response, AllocError>
    ensures { IfTells (F.source_state files.old) (λ s. IfOk result (λ r.
        ByVouching (SignsBody (question_of question.entry.now)) vouching.entry.now s
        (F.source_state files.new) (response r))) }
{
    match read_front(alloc, files, question.body, MAX_BLOB_LEN + 1) {
        Ok(body) => respond_body(alloc, question, vouching, &body, files),
        Err(fault) => unread(alloc, question.body, fault),
    }
}

/// The response after the bytes of the vouch file were read and stored.
fn respond_vouch_bytes<F: Files>(
    alloc: Global,
    question: &SshsigQuestion<'_>,
    bytes: &[u8],
    files: &mut F,
) -> Result<Response, AllocError>
    requires { length bytes.now ≤ file_limit }
    ensures { IfTells (F.source_state files.old) (λ s. IfOk result (λ r.
        SignsVouched (question_of question.entry.now) None (or_vouch_fault (vouched_of bytes.now)) s
        (F.source_state files.new) (response r))) }
{
    match Vouches::new(bytes) {
        Ok(vouches) => respond_vouched(alloc, question, &Vouching::Held(vouches), files),
        Err(number) => vouch_fault(alloc, number),
    }
}

/// The response with a vouch file that can be read only once, as standard input and a pipe: its
/// bytes are stored.
fn respond_held<F: Files>(
    alloc: Global,
    question: &SshsigQuestion<'_>,
    name: &str,
    files: &mut F,
) -> Result<Response, AllocError>
    requires { (question_of question.now).vouch ≡ Some name.now }
    ensures { IfTells (F.source_state files.old) (λ s. IfOk result (λ r.
        Signs (question_of question.entry.now) s (F.source_state files.new) (response r))) }
{
    match read_vouch_file(alloc, files, name) {
        Ok(bytes) => respond_vouch_bytes(alloc, question, &bytes, files),
        Err(fault) => unread(alloc, name, fault),
    }
}

/// The response with a regular vouch file, which is read twice. The first reading goes to the end,
/// since a fault of this file is reported before those of the body. None of its bytes are stored.
fn respond_named<F: Files>(
    alloc: Global,
    question: &SshsigQuestion<'_>,
    name: &str,
    files: &mut F,
) -> Result<Response, AllocError>
    requires vouch { (question_of question.now).vouch ≡ Some name.now }
    requires named { bytes_eq name.now dash ≡ false }
    ensures { IfTells (F.source_state files.old) (λ s. IfOk result (λ r.
        Signs (question_of question.entry.now) s (F.source_state files.new) (response r))) }
{
    match seek_vouched(files, name, None, None) {
        Ok(Ok(_)) => respond_vouched(alloc, question, &Vouching::Named(name), files),
        Ok(Err(number)) => vouch_fault(alloc, number),
        Err(fault) => unread(alloc, name, fault),
    }
}

/// The response to a file signature.
fn respond_signature<F: Files>(
    alloc: Global,
    question: &SshsigQuestion<'_>,
    files: &mut F,
) -> Result<Response, AllocError>
    ensures { IfTells (F.source_state files.old) (λ s. IfOk result (λ r.
        Signs (question_of question.entry.now) s (F.source_state files.new) (response r))) }
{
    match question.vouch {
        None => respond_vouched(alloc, question, &Vouching::Nothing, files),
        // Only a regular file can be read twice: a pipe gives nothing the second time.
        Some(name) if name != "-" && files.is_regular(name) => {
            respond_named(alloc, question, name, files)
        }
        Some(name) => respond_held(alloc, question, name, files),
    }
}

/// The response to `sshsig`.
pub fn respond_sshsig<F: Files>(
    alloc: Global,
    words: &Args<'_>,
    files: &mut F,
) -> Result<Response, CommandError>
    ensures { IfTells (F.source_state files.old) (λ s. IfAnswered result (λ r.
        RespondsToSshsig (rows_in words.now) s (F.source_state files.new) r)) }
{
    let question = words.sshsig_question()?;
    let response = respond_signature(alloc, &question, files)?;
    Ok(response)
}
