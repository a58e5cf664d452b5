// The search of a cumulative table: up from the place that a guide gives. Most words find their place in the guide at once. The search goes by
// the ends of the intervals: the words of magnitude m are those below ends[m], and the last magnitude has no end.
ghost use Rattle.std.specs.Prelude.{◌≡◌, ℕ, ◌<◌, get_or, drop};
ghost use Rattle.cdt.specs.Guided.{climbed, guide_at, first_step, sampled_by};

// Where the search of a word starts, by its highest eight bits.
pub type Guide = [usize; 256];

// Of so many ends and more a good part of the words meets one after the guide's entry.
const MANY_ENDS: usize = 64;

// A coefficient that no output has encoded yet.
#[derive(Clone, Copy, Debug, PartialEq, Eq)]
pub struct Sampled {
    pub positive: bool,
    pub magnitude: u64,
}

// The first index from a place on whose end is above the word, or the number of ends, or the place where it is past them. Nothing is judged on the way.
#[tactic(auto, using(crate::proofs::Climbing::climb_stop, crate::proofs::Climbing::climb_on, crate::proofs::Climbing::climb_end))]
fn index_from(ends: &[u64], word: u64, start: usize) -> usize
    ensures { result ≡ climbed (drop start ends.now) word start }
{
    let mut at = start;
    // The place is counted by hand: where the ends are over it stands as the answer, with no test beside that of the loop.
    while let Some(end) = ends.get(at) {
        if word < *end {
            return at;
        }
        at += 1;
    }
    at
}

// The guide of a table: entry k is the index of the word k * 2^56, and is found from the entry before it. It is made once for a draw.
pub fn make_guide(ends: &[u64]) -> Guide
    ensures { (k : ℕ) → k < 256 → get_or result k 0 ≡ guide_at ends.now k }
{
    let mut guide = [0; 256];
    let mut at = 0;
    for k in 0..256 {
        at = index_from(ends, k as u64 * 0x100_0000_0000_0000, at);
        guide[k] = at;
    }
    guide
}

// Where a search goes on after the end at a place. Among many ends it is compared and not branched on, since a branch would be guessed wrong as
// often as not; among few the place itself, since the guide's entry mostly is the magnitude.
fn first_step(ends: &[u64], word: u64, place: usize) -> usize
    ensures { result ≡ first_step ends.now word place }
{
    if ends.len() < MANY_ENDS {
        return place;
    }
    if ends.len() <= place {
        return place;
    }
    place + (ends[place] <= word) as usize
}

// The coefficient of a word: its magnitude by the table, from the guide's entry on, and positive where the word is odd.
#[tactic(auto, using(crate::proofs::Climbing::step_same))]
pub fn sample_magnitude(ends: &[u64], guide: &Guide, word: u64) -> Sampled
    ensures { result ≡ sampled_by ends.now guide.now word }
{
    let guided = guide[(word / 0x100_0000_0000_0000) as usize];
    let start = first_step(ends, word, guided);
    Sampled {
        positive: word % 2 == 1,
        magnitude: index_from(ends, word, start) as u64,
    }
}
