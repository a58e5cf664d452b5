// Signs with chosen places: a sign is read before the choice that it goes with.
ghost use Rattle.std.specs.Prelude.{◌≡◌, ◌<◌, length, drop};
ghost use Rattle.fixed_weights.specs.Inserting.{lowest_sign_and_place, sign_and_place, signing};

// The signs at hand of the word read last: its lowest bits, and how many they are.
#[derive(Clone, Copy, Debug, PartialEq, Eq)]
pub struct Signs {
    pub word: u64,
    pub left: usize,
}

// A sign bit and a chosen place; then the signs left, and the place in the words.
#[derive(Clone, Copy, Debug, PartialEq, Eq)]
pub struct Signing {
    pub bit: usize,
    pub selected: usize,
    pub signs: Signs,
    pub place: usize,
}

// Takes the lowest of the signs at hand and chooses a place among k.
#[tactic(auto, using(crate::proofs::Signs::lowest_some, crate::proofs::Signs::lowest_none))]
fn lowest_sign_and_place(words: &[u32], place: usize, signs: Signs, k: u64) -> Option<Signing>
    requires { 0 < signs.left }
    ensures { result ≡ signing (length words.now) (lowest_sign_and_place k signs.word signs.left (drop place words.now)) }
{
    let chosen = words::uniform_below(words, place, k)?;
    Some(Signing {
        bit: (signs.word % 2) as usize,
        selected: chosen.value as usize,
        signs: Signs {
            word: signs.word / 2,
            left: signs.left - 1,
        },
        place: chosen.place,
    })
}

// The same, with a word of 32 signs read first where none are left.
#[tactic(auto, using(crate::proofs::Signs::sign_held, crate::proofs::Signs::sign_refilled, crate::proofs::Signs::sign_missing))]
pub fn sign_and_place(words: &[u32], place: usize, signs: Signs, k: u64) -> Option<Signing>
    ensures { result ≡ signing (length words.now) (sign_and_place k signs.word signs.left (drop place words.now)) }
{
    if signs.left != 0 {
        return lowest_sign_and_place(words, place, signs, k);
    }
    let word = words::next_u32(words, place)?;
    let signs = Signs {
        word: word.value,
        left: 32,
    };
    lowest_sign_and_place(words, word.place, signs, k)
}
