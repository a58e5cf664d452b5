// Bytes in lower-case hexadecimal, two digits a byte, and `-` for none.
ghost use Rattle.std.specs.Prelude.{◌≡◌, ◌*◌, ◌<◌, ◌≤◌, length, take};
ghost use Rattle.desk_cases.specs.Hexadecimal.{digit, hex, shown, is_digit, value_of, all_digits, bytes_in, Read, IsPrefixLen};

// The digit of a number below 16.
fn digit_of(value: u8) -> u8
    requires { value < 16 }
    ensures { result ≡ digit value }
{
    if value < 10 {
        return 48 + value;
    }
    87 + value
}

// Writes the digits of bytes over a text that is twice as long.
fn write_digits(values: &[u8], text: &mut [u8])
    requires { length text.old ≡ 2 * length values.now }
    ensures { text.new ≡ hex values.now }
{
    let n = values.len();
    for i in 0..n {
        let value = values[i];
        text[2 * i] = digit_of(value / 16);
        text[2 * i + 1] = digit_of(value % 16);
    }
}

// Writes bytes as a field at the start of a text that has room for it, and hands back its length.
pub(crate) fn write_field(values: &[u8], text: &mut [u8]) -> usize
    requires { (2 * length values.now ≤ length text.old) × (0 < length text.old) }
    ensures text_after { take result text.new ≡ shown values.now }
    ensures prefix_len { IsPrefixLen result text.new }
{
    let n = values.len();
    if n == 0 {
        text[0] = b'-';
        return 1;
    }
    let size = 2 * n;
    write_digits(values, &mut text[..size]);
    size
}

// Whether a byte is a digit.
fn is_digit(byte: u8) -> bool
    ensures { result ≡ is_digit byte }
{
    ((48 <= byte) & (byte <= 57)) | ((97 <= byte) & (byte <= 102))
}

// The value of a digit; of another byte, some number below 16.
fn value_of(byte: u8) -> u8
    ensures value { result ≡ value_of byte }
    ensures upper_bound { result < 16 }
{
    if 97 <= byte {
        return (byte - 87) % 16;
    }
    if 48 <= byte {
        return (byte - 48) % 16;
    }
    0
}

// Whether every byte of a text is a digit.
fn all_digits(text: &[u8]) -> bool
    ensures { result ≡ all_digits text.now }
{
    for byte in text {
        if !is_digit(*byte) {
            return false;
        }
    }
    true
}

// Reads the bytes of digits, which are twice as many.
fn read_digits(text: &[u8], values: &mut [u8])
    requires { length text.now ≡ 2 * length values.old }
    ensures { values.new ≡ bytes_in text.now }
{
    let n = values.len();
    for i in 0..n {
        values[i] = value_of(text[2 * i]) * 16 + value_of(text[2 * i + 1]);
    }
}

// Whether a field stands for bytes that there is room for, and how many; none where it does not.
#[derive(Clone, Copy)]
pub(crate) struct Field {
    pub good: bool,
    pub count: usize,
}

// Reads a field of bytes into a room.
pub(crate) fn read_field(text: &[u8], room: &mut [u8]) -> Field
    ensures { Read text.now (length room.old) result.good result.count room.new }
{
    let none = Field {
        good: false,
        count: 0,
    };
    let size = text.len();
    let count = size / 2;
    let odd = size % 2;
    if size == 1 {
        return Field {
            good: text[0] == b'-',
            count: 0,
        };
    }
    if (count == 0) | (odd != 0) | (room.len() < count) {
        return none;
    }
    if !all_digits(text) {
        return none;
    }
    read_digits(text, &mut room[..count]);
    Field { good: true, count }
}
