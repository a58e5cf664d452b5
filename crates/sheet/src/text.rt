// Writing an answer's text into lent bytes. Each function writes at a place and hands back the place after what it wrote. A value to be
// written is 64 bits: signed ones are a coefficient, others a number of the first or the third line.
ghost use Rattle.std.specs.Prelude.{◌≡◌, ◌+◌, ◌*◌, ◌≤◌, length, nat_abs};
ghost use Rattle.decimal.specs.Decimal.{decimal};
ghost use Rattle.sheet.specs.Text.{only_if, item_text, line};
ghost use Rattle.little_endian.specs.Patterns.{value_of, values_of};
ghost use Rattle.sheet.specs.Written.{Written};

// The largest bits that are not those of a negative number, and the largest bits.
const TOP: u64 = 0x7fff_ffff_ffff_ffff;

const ALL: u64 = 0xffff_ffff_ffff_ffff;

// The magnitude of what bits stand for.
fn size_of(bits: u64, signed: bool) -> u64
    ensures { result ≡ nat_abs (value_of signed bits) }
{
    if signed & (TOP < bits) {
        return ALL - bits + 1;
    }
    bits
}

// A byte where it is wanted, else nothing.
fn write_byte(text: &mut [u8], at: usize, wanted: bool, byte: u8) -> usize
    requires { at + length (only_if wanted byte) ≤ length text.old }
    ensures { Written text.old at (only_if wanted byte) text.new result }
{
    if wanted {
        text[at] = byte;
        return at + 1;
    }
    at
}

// A number in decimal: its higher digits, then the last.
fn write_number(text: &mut [u8], at: usize, value: u64) -> usize
    requires { at + length (decimal value) ≤ length text.old }
    ensures { Written text.old at (decimal value) text.new result }
{
    if value < 10 {
        text[at] = 48 + value as u8;
        return at + 1;
    }
    let end = write_number(text, at, value / 10);
    text[end] = 48 + (value % 10) as u8;
    end + 1
}

// A value of a line: a space before it if it is a later one, a minus sign if it is negative, and its magnitude.
fn write_item(text: &mut [u8], at: usize, later: bool, bits: u64, signed: bool) -> usize
    requires { at + length (item_text later (value_of signed bits)) ≤ length text.old }
    ensures { Written text.old at (item_text later (value_of signed bits)) text.new result }
{
    let after_space = write_byte(text, at, later, 32);
    let after_sign = write_byte(text, after_space, signed & (TOP < bits), 45);
    let size = size_of(bits, signed);
    write_number(text, after_sign, size)
}

// A line of values: a space before each but the first, and a newline after them. A value takes at most 21 bytes, a sign and 20 digits.
pub(crate) fn write_line(text: &mut [u8], at: usize, values: &[u64], signed: bool) -> usize
    requires { at + 22 * length values.now + 1 ≤ length text.old }
    ensures written { Written text.old at (line (values_of signed values.now)) text.new result }
    ensures upper_bound { result ≤ at + 22 * length values.now + 1 }
{
    let n = values.len();
    let mut end = at;
    let mut i = 0;
    while i < n {
        end = write_item(text, end, 0 < i, values[i], signed);
        i += 1;
    }
    text[end] = 10;
    end + 1
}
