// Words out of bytes.
ghost use Rattle.std.specs.Prelude.{◌≡◌, cond, ◌+◌, ◌*◌, ◌<◌, ◌≤◌, eqb, length, get_or};
ghost use Rattle.little_endian.specs.LittleEndian.{u32_at, words_in};

// The little-endian u32 that begins at a byte.
fn read_u32(bytes: &[u8], at: usize) -> u32
    requires { at + 4 ≤ length bytes.now }
    ensures { result ≡ u32_at bytes.now at }
{
    u32::from_le_bytes([bytes[at], bytes[at + 1], bytes[at + 2], bytes[at + 3]])
}

// Reads the words that stand in the bytes, four bytes each. Where the bytes are not four times as many as the words, nothing is written.
pub fn read_words(words: &mut [u32], bytes: &[u8])
    ensures { words.new ≡
        cond (eqb (length bytes.now) (4 * length words.old)) (words_in bytes.now) words.old }
{
    let n = words.len();
    let size = bytes.len();
    if (size / 4 != n) | (size % 4 != 0) {
        return;
    }
    for i in 0..n {
        words[i] = read_u32(bytes, 4 * i);
    }
}
