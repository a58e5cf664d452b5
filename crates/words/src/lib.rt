// An inner crate of the library primus_distr: lent words in place of a random source. Each function reads from a place of the words and
// hands back the value with the place after it, and a choice also how many words it passed over; or nothing, where a word is missing.
#![tactic(auto)]

ghost use Rattle.std.specs.Prelude.{◌≡◌, ◌+◌, ◌*◌, ◌%◌, ◌^◌, ◌<◌, length, drop};
ghost use Rattle.distr.specs.Words.{word, wide, choose, coin};
ghost use Rattle.distr.specs.Skipped.{passed_over};
ghost use Rattle.words.specs.Reading.{taken, told, told_chance};

use distr::threshold::Threshold;

// A value, the place after the words that gave it, and how many words were passed over before them.
#[derive(Clone, Copy, Debug, PartialEq, Eq)]
pub struct Taken {
    pub value: u64,
    pub place: usize,
    pub skipped: usize,
}

// A yes or a no, and the place after the words that gave it.
#[derive(Clone, Copy, Debug, PartialEq, Eq)]
pub struct Told {
    pub yes: bool,
    pub place: usize,
}

// The next word.
#[tactic(auto, using(crate::proofs::Places::next_some, crate::proofs::Places::next_none))]
pub fn next_u32(words: &[u32], place: usize) -> Option<Taken>
    ensures { result ≡ taken (length words.now) 0 (word (drop place words.now)) }
{
    let value = *words.get(place)? as u64;
    Some(Taken {
        value,
        place: place + 1,
        skipped: 0,
    })
}

// Two words as one of 64 bits, low half first.
pub fn wide_word(low: u32, high: u32) -> u64
    ensures { result ≡ low + high * 2 ^ 32 }
{
    low as u64 + high as u64 * 0x1_0000_0000
}

// The next two words as one of 64 bits, low half first.
#[tactic(auto, using(crate::proofs::Places::wide_some, crate::proofs::Places::wide_none))]
pub fn next_u64(words: &[u32], place: usize) -> Option<Taken>
    ensures { result ≡ taken (length words.now) 0 (wide (drop place words.now)) }
{
    let n = words.len();
    if n < 2 || n - 2 < place {
        return None;
    }
    Some(Taken {
        value: wide_word(words[place], words[place + 1]),
        place: place + 2,
        skipped: 0,
    })
}

// What a word leaves on division by k. Where k fits a word the division is one of 32 bits.
fn remainder(word: u32, k: u64) -> u32
    requires { 0 < k }
    ensures { result ≡ word % k }
{
    if 0xffff_ffff < k {
        word
    } else {
        word % (k as u32)
    }
}

// A choice among k. A word w is skipped where its run of k, from w - w % k on, does not end at 2^32 or below: one division for each word.
// The place after a word is made before the word is judged, which is faster.
#[tactic(auto, using(crate::proofs::Choosing::same_first, crate::proofs::Choosing::none_fits, crate::proofs::Choosing::too_many, crate::proofs::Choosing::same_last, crate::proofs::Choosing::same_taken, crate::proofs::Choosing::same_next))]
pub fn uniform_below(words: &[u32], place: usize, k: u64) -> Option<Taken>
    ensures { result ≡ taken (length words.now) (passed_over k (drop place words.now)) (choose k (drop place words.now)) }
{
    if k == 0 || 0x1_0000_0000 < k {
        return None;
    }
    let last = 0x1_0000_0000 - k;
    for i in place..words.len() {
        let w = words[i];
        let r = remainder(w, k);
        let next = i + 1;
        if (w - r) as u64 <= last {
            return Some(Taken {
                value: r as u64,
                place: next,
                skipped: i - place,
            });
        }
    }
    None
}

// A coin: yes for a word of 2^31 or more.
#[tactic(auto, using(crate::proofs::Places::coin_some, crate::proofs::Places::coin_none))]
pub fn random_bool(words: &[u32], place: usize) -> Option<Told>
    ensures { result ≡ told (length words.now) (coin (drop place words.now)) }
{
    let word = next_u32(words, place)?;
    Some(Told {
        yes: 0x8000_0000 <= word.value,
        place: word.place,
    })
}

// Yes for a 64-bit word below the threshold. The full threshold says yes and hands back the same place, also one past the end.
#[tactic(auto, using(crate::proofs::Places::chance_some, crate::proofs::Places::chance_none), unfolding(crate::specs::Reading::told_chance))]
pub fn bernoulli(words: &[u32], place: usize, threshold: Threshold) -> Option<Told>
    ensures { result ≡ told_chance words.now place threshold }
{
    if threshold.full {
        return Some(Told { yes: true, place });
    }
    let word = next_u64(words, place)?;
    Some(Told {
        yes: word.value < threshold.below,
        place: word.place,
    })
}
