//! The pieces of constant markup, and the byte that stands for each in a marked text.

ghost use Rattle.std.specs.Prelude.{◌≡◌, map};
ghost use Rattle.ssh_page.specs.Pieces.{all_markup, mark, markup_at};

use crate::style::STYLE;

/// A piece of constant markup. Its HTML is in `MARKUP`, in the same order.
#[derive(Clone, Copy, Debug, PartialEq, Eq)]
pub(crate) enum Piece {
    // A text of a file.
    Code,
    CodeEnd,
    // The row of a line: its classes, the numbers of its file and of itself, its cells.
    Row,
    FileId,
    LineId,
    RowNumber,
    KeyCell,
    RightsCell,
    LimitsCell,
    RowEnd,
    // Classes: how soon to mend what a code says, before its number; what a line is.
    TodayClass,
    SoonClass,
    TidyClass,
    PolicyClass,
    UnreadableClass,
    AuthorityClass,
    // The key of a line, and whose it is.
    NoComment,
    KeyType,
    KeyTypeEnd,
    Fingerprint,
    FingerprintEnd,
    // Its rights, those that are on and those that are off.
    Port,
    Agent,
    X11,
    Pty,
    UserRc,
    RightOff,
    NoRights,
    RightsUnknown,
    // Its limits, each a paragraph.
    Limit,
    LimitEnd,
    NoLimit,
    // A finding, and the link to another line that it names.
    Finding,
    FindingCode,
    FindingSays,
    SeeFile,
    SeeLine,
    LinkEnd,
    // The section of a file: its classes, its name, its counts, its table or its fault.
    Section,
    SectionName,
    SectionSays,
    KeysTable,
    HostsTable,
    TableEnd,
    SectionEnd,
    Fault,
    FaultEnd,
    // The register of the files: a row for each, with a link to its section.
    Register,
    FileRow,
    FileName,
    FirstCount,
    NextCount,
    Digest,
    DigestEnd,
    FaultCell,
    FaultCellEnd,
    RegisterTotal,
    // The table to sign.
    Sign,
    // The head of the page, up to its title, and between the places of the title.
    Front,
    StyleStart,
    Style,
    StyleEnd,
    HeadingEnd,
    // What the review says: its verdict, its numbers, and what it was asked.
    VerdictGood,
    VerdictBad,
    ParagraphEnd,
    Tiles,
    Tile,
    TileWords,
    ItemEnd,
    ListEnd,
    Asked,
    Term,
    TermSays,
    TermEnd,
    HeaderEnd,
    // What has to be mended: the codes that were found, by how soon.
    Mend,
    TodayGroup,
    SoonGroup,
    TidyGroup,
    PolicyGroup,
    GroupEnd,
    FoundCode,
    FoundCount,
    FoundBar,
    FoundBarLength,
    FoundMeans,
    FoundRemedy,
    FoundEnd,
    // The places of a code: links to the rows that have it.
    Places,
    PlaceFile,
    PlacesEnd,
    // Where there is nothing to mend; and the end of the part.
    NothingToMend,
    MendEnd,
    // The codes that were not found, and those that were not looked for.
    Absent,
    Item,
    LeftOut,
    // Where each key stands: for each key its name on the page, its fingerprint, and its lines.
    Keys,
    Key,
    KeyPrint,
    Limited,
    KeyEnd,
    // The keys in many files, as a picture: a row for each, and in it a column for each file.
    Picture,
    PictureRow,
    Strip,
    StripColumns,
    Column,
    ColumnEnd,
    LowColumnEnd,
    StripEnd,
    PictureEnd,
    // The lines of all files: the choices of one code, and what stands around the sections.
    Lines,
    Choices,
    Choice,
    ChoiceLabel,
    ChoiceWords,
    ChoiceEnd,
    Sections,
    LinesEnd,
    // The end of the page.
    PageEnd,
}

/// How many pieces there are.
pub(crate) const PIECES: usize = 120;

/// The HTML of each piece.
static MARKUP: [&str; PIECES] = [
    "<code>",
    "</code>",
    "<tr class=\"ln",
    "\" id=\"f",
    "l",
    "\"><th scope=\"row\">",
    "</th><td>",
    "</td><td>",
    "</td><td>",
    "</td></tr>\n",
    " a F",
    " b F",
    " c F",
    " p F",
    " u",
    " ca",
    "<i>no comment</i>",
    " <span>",
    "</span>",
    "<br><samp>SHA256:",
    "</samp>",
    "<b>port</b>",
    "<b>agent</b>",
    "<b>x11</b>",
    "<b>pty</b>",
    "<b>rc</b>",
    "<i></i>",
    "<b class=\"no\">none</b>",
    "<i>cannot be read</i>",
    "<p>",
    "</p>",
    "<p class=\"nl\">any command, from anywhere, for ever</p>",
    "<p class=\"f",
    "\"><b>",
    "</b>: ",
    " <a href=\"#f",
    "\">see line ",
    "</a>",
    "<section class=\"fl",
    "\">\n<h3>",
    "</h3>\n<p>",
    "</p>\n<div class=\"t\">\n<table>\n<thead><tr><th scope=\"col\">Line</th><th scope=\"col\">Key and comment</th><th scope=\"col\">Rights</th><th scope=\"col\">Limits, and what was found</th></tr></thead>\n<tbody>\n",
    "</p>\n<div class=\"t\">\n<table>\n<thead><tr><th scope=\"col\">Line</th><th scope=\"col\">Key and comment</th><th scope=\"col\">Is</th><th scope=\"col\">Names, and what was found</th></tr></thead>\n<tbody>\n",
    "</tbody>\n</table>\n</div>\n</section>\n",
    "</p>\n</section>\n",
    "<strong class=\"a\">",
    "</strong>: ",
    "<section id=\"files\">\n<h2>Files that were read</h2>\n<p class=\"says\">SHA-256 is that of the bytes that were read, as sha256sum prints it: it ties this page to them.</p>\n<table class=\"reg\">\n<thead><tr><th scope=\"col\">File</th><th scope=\"col\">Lines</th><th scope=\"col\">Keys</th><th scope=\"col\">Unreadable</th><th scope=\"col\">Findings</th><th scope=\"col\">SHA-256</th></tr></thead>\n<tbody>\n",
    "<tr><th scope=\"row\"><a href=\"#f",
    "\">",
    "</a></th><td class=\"n\">",
    "</td><td class=\"n\">",
    "</td><td><samp>",
    "</samp></td></tr>\n",
    "</a></th><td colspan=\"5\">",
    "</td></tr>\n",
    "</tbody>\n</table>\n<p>",
    "<section id=\"sign\">\n<h2>Sign</h2>\n<p>The review says what the lines of these files give. It does not read sshd_config, file permissions or key revocation lists, and it does not know who holds a key. Count a line that cannot be read (F1) as access. \"Keep\" is a decision of the people who sign.</p>\n<table class=\"sg\">\n<thead><tr><td></td><th scope=\"col\">Reviewed by</th><th scope=\"col\">Approved by</th></tr></thead>\n<tbody>\n<tr><th scope=\"row\">Name, role</th><td></td><td></td></tr>\n<tr><th scope=\"row\">Date</th><td></td><td></td></tr>\n<tr><th scope=\"row\">Compared with the review of</th><td></td><td></td></tr>\n<tr><th scope=\"row\">To be removed or mended, by when, by whom</th><td></td><td></td></tr>\n<tr><th scope=\"row\">Signature</th><td></td><td></td></tr>\n</tbody>\n</table>\n<p>To sign the file itself: <kbd>ssh-keygen -Y sign -n access-review -f KEY PAGE</kbd>. To see whether a file of the list is still the same: <kbd>sha256sum FILE</kbd>. What changed since the last review is a difference of two JSON lists: docs/RECIPES.md.</p>\n</section>\n",
    "<!DOCTYPE html>\n<html lang=\"en\">\n<head>\n<meta charset=\"utf-8\">\n<meta http-equiv=\"Content-Security-Policy\" content=\"default-src 'none'; style-src 'sha256-a/uv0VIBpsGMtHiL32HGXUkqePuff6iPlf6C/yW8prE='; base-uri 'none'; form-action 'none'\">\n<meta name=\"viewport\" content=\"width=device-width, initial-scale=1\">\n<meta name=\"color-scheme\" content=\"light dark\">\n<meta name=\"format-detection\" content=\"telephone=no, date=no, address=no, email=no\">\n<meta name=\"robots\" content=\"noindex\">\n<title>",
    "</title>\n<style>\n",
    STYLE,
    "</style>\n</head>\n<body>\n<a class=\"skip\" href=\"#mend\">To what has to be mended</a>\n<header>\n<p class=\"org\">ssh_audit review</p>\n<h1>",
    "</h1>\n",
    "<p class=\"verdict ok\"><span class=\"dot\" aria-hidden=\"true\"></span>",
    "<p class=\"verdict a\"><span class=\"dot\" aria-hidden=\"true\"></span>",
    "</p>\n",
    "<ul class=\"tiles\">\n",
    "<li><b>",
    "</b> ",
    "</li>\n",
    "</ul>\n",
    "<dl class=\"asked\">\n",
    "<dt>",
    "</dt><dd>",
    "</dd>\n",
    "</dl>\n<p class=\"says\">Text on a tinted ground, <code>like this</code>, comes from the files: whoever can write there wrote it. It is printable ASCII; every other byte, and the backslash, is shown as \\x and two digits.</p>\n<nav aria-label=\"Parts of this page\"><a href=\"#mend\">What has to be mended</a> <a href=\"#keys\">Keys</a> <a href=\"#lines\">Every line</a> <a href=\"#files\">Files</a> <a href=\"#sign\">Sign</a></nav>\n</header>\n<main>\n",
    "<section id=\"mend\">\n<h2>What has to be mended</h2>\n",
    "<h3 class=\"a\"><span class=\"dot\" aria-hidden=\"true\"></span>Today</h3>\n<p class=\"says\">A line does other than it seems to do, or nobody can say what it does.</p>\n<dl class=\"codes\">\n",
    "<h3 class=\"b\"><span class=\"dot\" aria-hidden=\"true\"></span>Soon</h3>\n<p class=\"says\">A weak key, a way around a limit, or two lines for one key.</p>\n<dl class=\"codes\">\n",
    "<h3 class=\"c\"><span class=\"dot\" aria-hidden=\"true\"></span>Tidy up</h3>\n<p class=\"says\">Lines that let nobody in, or never decide.</p>\n<dl class=\"codes\">\n",
    "<h3 class=\"p\"><span class=\"dot\" aria-hidden=\"true\"></span>Policy</h3>\n<p class=\"says\">Told because it was asked for: a policy may want it otherwise.</p>\n<dl class=\"codes\">\n",
    "</dl>\n",
    "<dt><b class=\"cd\">",
    "</b> <span class=\"n\">",
    "</span> <svg class=\"bar\" viewBox=\"0 0 ",
    " 1\" preserveAspectRatio=\"none\" aria-hidden=\"true\"><rect width=\"",
    "\" height=\"1\"></rect></svg> <span class=\"mean\">",
    "</span></dt>\n<dd><p>What to do: ",
    ".</p></dd>\n",
    ".</p><p>",
    "<a href=\"#f",
    "</p></dd>\n",
    "<p>Nothing.</p>\n",
    "</section>\n",
    "<p class=\"says\">Looked for in every line, and not found:</p>\n<ul>\n",
    "<li>",
    "<p class=\"says\">Not looked for:",
    "<section id=\"keys\">\n<h2>Where each key stands</h2>\n<p class=\"says\">",
    "<article id=\"k",
    "<samp>SHA256:",
    " <i>(limited)</i>",
    "</p>\n</article>\n",
    "<table class=\"mx\">\n<caption>Keys in more than two files: each column is a file, in the order of the list of files. A mark is low where the key is limited.</caption>\n<thead><tr><th scope=\"col\">Key</th><th scope=\"col\">Files</th><th scope=\"col\">Where</th></tr></thead>\n<tbody>\n",
    "<tr><th scope=\"row\"><a href=\"#k",
    "</td><td><svg class=\"strip\" viewBox=\"0 0 ",
    " 1\" preserveAspectRatio=\"none\" aria-hidden=\"true\"><path class=\"full\" d=\"",
    "M",
    " 0h1v1h-1z",
    " .5h1v.5h-1z",
    "\"></path></svg></td></tr>\n",
    "</tbody>\n</table>\n",
    "<section id=\"lines\">\n<h2>Every line, by file</h2>\n",
    "<p class=\"says\">A choice hides the other lines on the screen. On paper all lines stand.</p>\n<b class=\"show\">Show</b> <input type=\"radio\" name=\"show\" id=\"s0\" checked><label for=\"s0\">all lines</label>\n",
    "<input type=\"radio\" name=\"show\" id=\"s",
    "\"><label for=\"s",
    "\">",
    "</label>\n",
    "<div class=\"all\">\n",
    "</div>\n</section>\n",
    "</main>\n<footer><p>Written by ssh_audit review --form html. No script, nothing from outside, no link out.</p></footer>\n</body>\n</html>\n",
];

/// The least byte that stands for a piece. All bytes below it are text.
pub(crate) const FIRST_MARK: u8 = 128;

impl Piece {
    /// The byte that stands for the piece in a marked text.
    #[tactic(auto, unfolding(crate::specs::Pieces::mark))]
    pub(crate) fn mark(self) -> u8
        ensures { result ≡ mark self }
    {
        FIRST_MARK + self as u8
    }
}

#[tactic(auto, unfolding(crate::specs::Pieces::all_markup))]
fn all_markup() -> &'static [&'static str]
    ensures { map (λ html. html.now) result.now ≡ all_markup }
{
    &MARKUP
}

/// The HTML of the piece with this number, counted from 0; nothing if there is none.
pub(crate) fn markup(number: usize) -> &'static [u8]
    ensures { result.now ≡ markup_at number }
{
    match all_markup().get(number) {
        Some(html) => html.as_bytes(),
        None => b"",
    }
}
