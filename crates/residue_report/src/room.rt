// Arrays for what is read and counted. Where a part of an array is lent, an `ensures` gives its length.
ghost use Rattle.std.specs.Prelude.{◌≡◌, length};

// For a text of 2,097,152 bytes, and one byte more.
pub(crate) fn text_room() -> [u8; 2097153]
    ensures { 2097153 ≡ length result }
{
    [0; 2097153]
}

// For limits, and for their counts.
pub(crate) fn limits_room() -> [u64; 4096]
    ensures { 4096 ≡ length result }
{
    [0; 4096]
}

// For residues.
pub(crate) fn residues_room() -> [u64; 65536]
    ensures { 65536 ≡ length result }
{
    [0; 65536]
}
