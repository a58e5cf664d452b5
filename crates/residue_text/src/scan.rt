// Finding the first byte of a kind, and the end of a line.
ghost use Rattle.std.specs.Prelude.{◌≡◌, ◌+◌, ◌≤◌, length, drop};
ghost use Rattle.residue_text.specs.Tokens.{sought, before, Lined};

// What is sought: a newline, a space, or a byte that is no space.
#[derive(Clone, Copy, Debug, PartialEq, Eq)]
pub(crate) enum Kind {
    Newline,
    Space,
    NoSpace,
}

// Whether a byte is of the kind that is sought.
fn is_sought(what: Kind, byte: u8) -> bool
    ensures { result ≡ sought what byte }
{
    let space = (byte == b' ') | (byte == b'\t') | (byte == b'\r') | (byte == b'\n');
    match what {
        Kind::Newline => byte == b'\n',
        Kind::Space => space,
        Kind::NoSpace => !space,
    }
}

// Where the first byte of the kind that is sought stands, from `at` on: at the text's end where there is none.
pub(crate) fn scan(text: &[u8], at: usize, what: Kind) -> usize
    requires { at ≤ length text.now }
    ensures value { result ≡ at + before (sought what) (drop at text.now) }
    ensures upper_bound { result ≤ length text.now }
{
    for i in at..text.len() {
        if is_sought(what, text[i]) {
            return i;
        }
    }
    text.len()
}

// Where the first line of a text ends, and where the text after it begins.
#[derive(Clone, Copy, Debug, PartialEq, Eq)]
pub(crate) struct Line {
    pub end: usize,
    pub next: usize,
}

// The first line: what follows it begins past its newline, or at the text's end where there is none.
pub(crate) fn first_line(text: &[u8]) -> Line
    ensures { Lined text.now result.end result.next }
{
    let end = scan(text, 0, Kind::Newline);
    if end < text.len() {
        return Line { end, next: end + 1 };
    }
    Line { end, next: end }
}
