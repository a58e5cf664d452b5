// Arrays for what is read and drawn. Where a part of an array is lent, an `ensures` gives its length.
ghost use Rattle.std.specs.Prelude.{◌≡◌, length};

// For a file of 131,072 bytes, and one byte more.
pub(crate) fn text_room() -> [u8; 131073]
    ensures { 131073 ≡ length result }
{
    [0; 131073]
}

// For the numbers of five lines, 10,000 for each.
pub(crate) fn numbers_room() -> [u64; 50000]
    ensures { 50000 ≡ length result }
{
    [0; 50000]
}

// For a table of reals, 5,000 at most.
pub(crate) fn reals_room() -> [f64; 5000] {
    [0.0; 5000]
}

// For the words of a draw.
pub(crate) fn words_room() -> [u32; 262144]
    ensures { 262144 ≡ length result }
{
    [0; 262144]
}

// For signed coefficients. They start at 9, so that one which a draw does not write is noticed.
pub(crate) fn coefficients_room() -> [i64; 131072]
    ensures { 131072 ≡ length result }
{
    [9; 131072]
}

// For an output modulo 2^64, or of residues; it starts at 9 for the same reason.
pub(crate) fn residues_room() -> [u64; 131072]
    ensures { 131072 ≡ length result }
{
    [9; 131072]
}
