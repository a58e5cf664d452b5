// How a word is cut into digits, lowest first.
#[derive(Clone, Copy, Debug, PartialEq, Eq)]
pub enum Width {
    // 32 bits.
    Bits,
    // 16 two-bit groups.
    Groups,
}
