// The eight fields of a sheet, and whether they are good.
ghost use Rattle.std.specs.Prelude.{◌≡◌, ◌≤◌, length};
ghost use Rattle.sheet.specs.Sheet.{fields_of, bad_fields, malformed};

use distr::limits::{MAX_SHEET_BYTES, MAX_SHEET_COEFFICIENTS, MAX_SHEET_WORDS};
use little_endian::words::read_words;

// The fields of a sheet, in their order.
#[derive(Clone, Copy)]
pub struct Fields {
    pub kind: u32,
    pub n: u32,
    pub a: u32,
    pub b: u32,
    pub count: u32,
    pub offset: u32,
    pub modulus: u32,
    pub last: u32,
}

// The eight fields.
pub(crate) fn read_fields(sheet: &[u8]) -> Fields
    requires { 32 ≤ length sheet.now }
    ensures { result ≡ fields_of sheet.now }
{
    let mut f: [u32; 8] = [0; 8];
    read_words(&mut f, &sheet[..32]);
    Fields {
        kind: f[0],
        n: f[1],
        a: f[2],
        b: f[3],
        count: f[4],
        offset: f[5],
        modulus: f[6],
        last: f[7],
    }
}

// Whether the fields are bad for a sheet of so many bytes. The words' end is judged in 64 bits.
fn bad_fields(f: Fields, size: usize) -> bool
    ensures { result ≡ bad_fields f size }
{
    let kind = f.kind;
    let last = f.last;
    let n = f.n;
    let count = f.count;
    let offset = f.offset;
    let end = offset as usize + 4 * count as usize;
    !((1 <= kind) & (kind <= 9))
        | (last != 0)
        | (MAX_SHEET_COEFFICIENTS < n)
        | (MAX_SHEET_WORDS < count)
        | (offset < 32)
        | (size < end)
}

// Whether a sheet is malformed, number 14.
pub(crate) fn is_malformed(sheet: &[u8]) -> bool
    ensures { result ≡ malformed sheet.now }
{
    let size = sheet.len();
    if (size < 32) | (MAX_SHEET_BYTES < size) {
        return true;
    }
    bad_fields(read_fields(sheet), size)
}
