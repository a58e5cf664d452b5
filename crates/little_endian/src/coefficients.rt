// Coefficients into bytes.
ghost use Rattle.std.specs.Prelude.{◌≡◌, cond, ◌*◌, ◌^◌, eqb, length};
ghost use Rattle.distr.specs.Packed.{digits};
ghost use Rattle.distr.specs.Encoding.{encode};
ghost use Rattle.little_endian.specs.LittleEndian.{bytes_of};

// A coefficient as 64 bits: of a negative one, 2^64 less its magnitude.
pub fn pattern(c: i64) -> u64
    ensures { result ≡ encode (2 ^ 64) c }
{
    c.cast_unsigned()
}

// Writes the eight bytes of a number, lowest first.
fn write_u64(bytes: &mut [u8], value: u64)
    requires { length bytes.old ≡ 8 }
    ensures { bytes.new ≡ digits 256 8 value }
{
    bytes.copy_from_slice(&value.to_le_bytes());
}

// Writes the coefficients, eight bytes each. Where the bytes are not eight times as many as the coefficients, nothing is written.
pub fn write_coefficients(bytes: &mut [u8], coefficients: &[i64])
    ensures { bytes.new ≡
        cond (eqb (length bytes.old) (8 * length coefficients.now)) (bytes_of coefficients.now) bytes.old }
{
    let n = coefficients.len();
    let size = bytes.len();
    if (size / 8 != n) | (size % 8 != 0) {
        return;
    }
    for i in 0..n {
        write_u64(&mut bytes[8 * i..8 * i + 8], pattern(coefficients[i]));
    }
}
