// Finding a byte in a text.
ghost use Rattle.std.specs.Prelude.{◌≤◌, length};

// Where the first such byte stands, from a place of a text on; the text's end where there is none.
pub(crate) fn find(text: &[u8], at: usize, byte: u8) -> usize
    requires { at ≤ length text.now }
    ensures not_before { at ≤ result }
    ensures in_bounds { result ≤ length text.now }
{
    match text[at..].iter().position(|b| *b == byte) {
        Some(i) => at + i,
        None => text.len(),
    }
}
