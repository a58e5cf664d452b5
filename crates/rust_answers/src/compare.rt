// The comparison of an answer with the stored one.
ghost use Rattle.std.specs.Prelude.{◌≡◌};
ghost use Rattle.rust_answers.specs.Answer.{same as sameAs, digest_with, digest as digest_of, shown, answer_line, agrees_with};

// Outputs up to this length are stored whole, longer ones by their digest.
const SHOWN: usize = 66;

// 2^31 - 1, the modulus of the digest.
const MODULUS: u64 = 0x7fff_ffff;

// Whether two lists of numbers are the same.
pub(crate) fn same(a: &[u64], b: &[u64]) -> bool
    ensures { result ≡ sameAs a.now b.now }
{
    if a.len() != b.len() {
        return false;
    }
    let mut equal = true;
    for i in 0..a.len() {
        equal = equal & (a[i] == b[i]);
    }
    equal
}

// The digest with one element more, to which an offset is added.
fn digest_with(digest: u64, offset: u64, element: u64) -> u64
    ensures { result ≡ digest_with offset digest element }
{
    let entered = std::num::wrapping_add_u64(element, offset);
    (48271 * (digest % MODULUS) + entered % MODULUS + 1) % MODULUS
}

// The digest of an output.
fn digest(offset: u64, output: &[u64]) -> u64
    ensures { result ≡ digest_of offset 1 output.now }
{
    let mut digest = 1;
    for element in output {
        digest = digest_with(digest, offset, *element);
    }
    digest
}

// Whether what is stored of an output is that of this one.
fn is_shown(offset: u64, stored: &[u64], output: &[u64]) -> bool
    ensures { result ≡ sameAs stored.now (shown offset output.now) }
{
    if output.len() <= SHOWN {
        return same(stored, output);
    }
    let digests = [digest(offset, output)];
    same(stored, &digests)
}

// Whether a stored answer is this one: number, place, the words and the bytes that were skipped and, for number 0, the output. The index is
// that of a stored answer, 0. The offset is what a digest adds to each element.
pub(crate) fn agrees(
    offset: u64,
    stored: &[u64],
    number: u32,
    place: usize,
    index: usize,
    skipped_words: u64,
    skipped_bytes: u64,
    output: &[u64],
) -> bool
    ensures { result ≡ agrees_with stored.now index (answer_line offset number place skipped_words skipped_bytes output.now) }
{
    if index != 0 {
        return false;
    }
    if stored.len() < 4 {
        return false;
    }
    let begins = (stored[0] == number as u64)
        & (stored[1] == place as u64)
        & (stored[2] == skipped_words)
        & (stored[3] == skipped_bytes);
    let tail = &stored[4..];
    if number != 0 {
        return begins & (tail.len() == 0);
    }
    begins & is_shown(offset, tail, output)
}
