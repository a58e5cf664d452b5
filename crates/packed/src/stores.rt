// The loops that store, two digits at a time by a table of pairs. The output and the words may overlap for all the compiler knows: what is read stands in a local first.
ghost use Rattle.std.specs.Prelude.{◌≡◌, [], ◌∷◌, ◌+◌, ◌*◌, ◌-◌, ◌/◌, ◌<◌, ◌≤◌, length, take, drop, IfSome};
ghost use Rattle.std.proofs.Math.Seq.{paste};
ghost use Rattle.distr.specs.Words.{map_read};
ghost use Rattle.distr.specs.Packed.{digits, split};
ghost use Rattle.distr.specs.UniformTernary.{bytes};
ghost use Rattle.packed.specs.Pairs.{digit_values, Paired, pair_set};
ghost use Rattle.packed.specs.Cutting.{Cut, digit_base, digits_aWord};
ghost use Rattle.packed.specs.Trits.{BytesStored, ByteFitted, Looked, bytes_looked, trits_from, reading};

use crate::bytes::{ACCEPTED, Ended, WordsStored};
use crate::tables::Tables;
use crate::trits::places_of;
use crate::width::Width;
use output::Output;

// Stores the two numbers of the pair that stands at i, at `at` and after it.
fn store_pair<T: Output>(output: &mut [T], at: usize, pairs: &[T], i: usize)
    requires { (at + 2 ≤ length output.old) × (i + 2 ≤ length pairs.now) }
    ensures { output.new ≡ pair_set (T.natural 0) pairs.now output.old at i }
{
    let first = pairs[i];
    let second = pairs[i + 1];
    output[at] = first;
    output[at + 1] = second;
}

// The digits of a word in a base, two a turn. Each caller has a base and a count of its own that are constants, so no turn divides.
fn store_digits<T: Output>(
    output: &mut [T],
    at: usize,
    pairs: &[T],
    base: u32,
    each: usize,
    word: u32,
)
    requires { (at + «each» ≤ length output.old) × Cut (T.natural 0) pairs.now base «each» }
    ensures { output.new ≡ paste output.old at (digit_values (T.natural 0) pairs.now (digits base «each» word)) «each» }
{
    let square = base * base;
    let mut x = word;
    for turn in 0..each / 2 {
        store_pair(output, at + 2 * turn, pairs, (x % square) as usize * 2);
        x = x / square;
    }
}

// The five trits of a byte: two pairs and the last one, each from where it stands in the table of pairs. A byte past those accepted is stored too, so
// that nothing branches on it, and leaves what stands before `at`.
fn store_trits<T: Output>(output: &mut [T], at: usize, tables: &Tables<T>, byte: u32)
    requires { (at + 5 ≤ length output.old) × (byte < 256) }
    ensures { (take at output.new ≡ take at output.old)
        × (byte < 243 → output.new ≡ paste output.old at (digit_values (T.natural 0) tables.now.pairs.now (digits 3 5 byte)) 5) }
{
    let pairs = tables.pairs;
    let places = places_of(tables.by, tables.groups, byte as u8);
    let i = places.last;
    store_pair(output, at, pairs, places.first);
    store_pair(output, at + 2, pairs, places.second);
    let last = pairs[i];
    output[at + 4] = last;
}

// A byte's trits, and the place after them; a byte that is skipped leaves the place.
fn store_byte<T: Output>(output: &mut [T], at: usize, tables: &Tables<T>, byte: u32) -> usize
    requires { (at + 5 ≤ length output.old) × (byte < 256) }
    ensures { BytesStored (T.natural 0) tables.now.pairs.now output.old at (byte ∷ []) output.new result }
{
    store_trits(output, at, tables, byte);
    let accepted = (byte < ACCEPTED) as usize;
    at + 5 * accepted
}

// The trits of a word's four bytes, and the place after them.
fn store_word<T: Output>(output: &mut [T], at: usize, tables: &Tables<T>, word: u32) -> usize
    requires { at + 20 ≤ length output.old }
    ensures { BytesStored (T.natural 0) tables.now.pairs.now output.old at (digits 256 4 word) output.new result }
{
    let second = word / 256;
    let third = second / 256;
    let one = store_byte(output, at, tables, word % 256);
    let two = store_byte(output, one, tables, second % 256);
    let three = store_byte(output, two, tables, third % 256);
    store_byte(output, three, tables, third / 256 % 256)
}

// What is left of the output from `at` on becomes the front of the part: the digits of a last word or byte, stored aside whole.
fn store_front<T: Output>(output: &mut [T], at: usize, part: &[T])
    requires { (at ≤ length output.old) × (length output.old ≤ at + length part.now) }
    ensures { output.new ≡ paste output.old at part.now (length output.old - at) }
{
    let left = &mut output[at..];
    let count = left.len();
    left.copy_from_slice(&part[..count]);
}

// Fills the output with what the digits from `place` on stand for, `each` of them a word. The words are enough; where the last one has
// digits too many, they are stored aside. The words stored whole are counted beforehand, so that a turn has one test and plain addresses.
fn fill_digits<T: Output>(
    output: &mut [T],
    pairs: &[T],
    base: u32,
    each: usize,
    words: &[u32],
    place: usize,
)
    requires { (place ≤ length words.now) × (length output.old ≤ (length words.now - place) * «each») × Cut (T.natural 0) pairs.now base «each» }
    ensures { output.new
        ≡ digit_values (T.natural 0) pairs.now (take (length output.old) (split base «each» (drop place words.now))) }
{
    let n = output.len();
    let end = place + n / each;
    let mut at = 0;
    for next in place..end {
        let word = words[next];
        store_digits(output, at, pairs, base, each, word);
        at += each;
    }
    if at < n {
        let word = words[end];
        let mut last = [T::natural(0); 32];
        store_digits(&mut last, 0, pairs, base, each, word);
        store_front(output, at, &last);
    }
}

// By the width, which is asked once, so that the loops have constants.
pub(crate) fn fill_words<T: Output>(
    output: &mut [T],
    pairs: &[T],
    width: Width,
    words: &[u32],
    place: usize,
)
    requires { (place ≤ length words.now) × (length output.old ≤ (length words.now - place) * digits_aWord width)
        × Paired (digit_base width) (T.natural 0) pairs.now }
    ensures { output.new ≡ digit_values (T.natural 0) pairs.now
        (take (length output.old) (split (digit_base width) (digits_aWord width) (drop place words.now))) }
{
    match width {
        Width::Bits => fill_digits(output, pairs, 2, 32, words, place),
        Width::Groups => fill_digits(output, pairs, 4, 16, words, place),
    }
}

// Whole words from `place` on, while there are any and the output has room for all their bytes. The last place where a word fits is worked
// out beforehand, so that a turn tests one index.
fn store_words<T: Output>(
    output: &mut [T],
    tables: &Tables<T>,
    words: &[u32],
    place: usize,
) -> WordsStored
    requires { place ≤ length words.now }
    ensures at_in_bounds { (result.at ≤ length output.new) × (result.place ≤ length words.now)
        × (trits_from (T.natural 0) tables.now.pairs.now output.new result.at (drop result.place words.now)
        ≡ trits_from (T.natural 0) tables.now.pairs.now output.old 0 (drop place words.now)) }
    ensures place_value { bytes_looked (drop place words.now) (length output.old) + 4 * place
        ≡ bytes_looked (drop result.place words.now) (length output.new - result.at) + 4 * result.place }
{
    let n = output.len();
    if n < 20 {
        return WordsStored { at: 0, place };
    }
    let last = n - 20;
    let mut at = 0;
    for next in place..words.len() {
        if last < at {
            return WordsStored { at, place: next };
        }
        let word = words[next];
        at = store_word(output, at, tables, word);
    }
    WordsStored {
        at,
        place: words.len(),
    }
}

// The trits of a byte, as many as there is room for, and the place after them; a byte that is skipped leaves the place.
fn store_fitting<T: Output>(output: &mut [T], at: usize, tables: &Tables<T>, byte: u32) -> usize
    requires { (at ≤ length output.old) × (byte < 256) }
    ensures { ByteFitted (T.natural 0) tables.now.pairs.now output.old at byte output.new result }
{
    if 5 <= output.len() - at {
        return store_byte(output, at, tables, byte);
    }
    let accepted = byte < ACCEPTED;
    if accepted {
        let mut whole = [T::natural(0); 5];
        store_trits(&mut whole, 0, tables, byte);
        store_front(output, at, &whole);
        return output.len();
    }
    at
}

// Fills the output from `from` on with what the trits from `place` on stand for, byte by byte. `rest` is what is left of the word read
// last, in `left` bytes: what stands there in the end was not looked at. Where a word is missing the output holds what was written before.
fn fill_bytes<T: Output>(
    output: &mut [T],
    from: usize,
    tables: &Tables<T>,
    words: &[u32],
    place: usize,
) -> Option<Ended>
    requires { (from ≤ length output.old) × (place ≤ length words.now) }
    ensures place_in_bounds { IfSome result (λ e. e.place ≤ length words.now)
        × (reading result output.new words.now
        ≡ trits_from (T.natural 0) tables.now.pairs.now output.old from (drop place words.now)) }
    ensures looked { IfSome result (λ e. Looked e words.now place (length output.old - from)) }
{
    let n = output.len();
    let mut at = from;
    let mut next = place;
    let mut rest: u32 = 0;
    let mut left: usize = 0;
    // a `while`, since a turn reads a word or takes a byte, and how far it moves on is what it read
    while at < n {
        if left == 0 {
            rest = *words.get(next)?;
            next += 1;
            left = 4;
        } else {
            at = store_fitting(output, at, tables, rest % 256);
            rest = rest / 256;
            left -= 1;
        }
    }
    Some(Ended { place: next, left })
}

// Fills the output with what the trits from `place` on stand for: whole words while the output has room for one, and the last ones byte by byte.
// Where a word is missing the output holds what was written before.
pub(crate) fn fill_trits<T: Output>(
    output: &mut [T],
    tables: &Tables<T>,
    words: &[u32],
    place: usize,
) -> Option<Ended>
    requires { place ≤ length words.now }
    ensures place_in_bounds { IfSome result (λ e. e.place ≤ length words.now)
        × (reading result output.new words.now
        ≡ map_read (λ ds. digit_values (T.natural 0) tables.now.pairs.now (take (length output.old) (split 3 5 ds)))
        (bytes (drop place words.now) ((length output.old + 4) / 5))) }
    ensures looked { IfSome result (λ e. Looked e words.now place (length output.old)) }
{
    let stored = store_words(output, tables, words, place);
    fill_bytes(output, stored.at, tables, words, stored.place)
}
