// The room for a text. An `ensures` gives its length, since a part of it is lent.
ghost use Rattle.std.specs.Prelude.{◌≡◌, length};

// For a text of 1,048,576 bytes, and one byte more.
pub(crate) fn text_room() -> [u8; 1048577]
    ensures { 1048577 ≡ length result }
{
    [0; 1048577]
}
