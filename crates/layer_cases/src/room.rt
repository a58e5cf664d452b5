// Arrays for what is read and drawn. Where a part of an array is lent, an `ensures` gives its length.
ghost use Rattle.std.specs.Prelude.{◌≡◌, length};

// For a file of 150,000 bytes. What follows them is not read.
pub(crate) fn text_room() -> [u8; 150000]
    ensures { 150000 ≡ length result }
{
    [0; 150000]
}

// For signed coefficients. They are 9 before a draw, so that what it leaves is seen.
pub(crate) fn coefficients_room() -> [i64; 70000]
    ensures { 70000 ≡ length result }
{
    [9; 70000]
}

// For residues; 9 for the same reason.
pub(crate) fn residues_room() -> [u64; 70000]
    ensures { 70000 ≡ length result }
{
    [9; 70000]
}
