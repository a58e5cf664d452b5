// A try, as in `sample`: a proposal and its judging. Nothing here knows the type of the output.
ghost use Rattle.std.specs.Prelude.{◌≡◌, ◌+◌, ◌≤◌, T, length, drop};
ghost use Rattle.distr.specs.Words.{got};
ghost use Rattle.distr.specs.Layered.{zero_threshold};
ghost use Rattle.words.specs.Reading.{threshold_value};
ghost use Rattle.layer_tables.specs.Lent.{lent_tables};
ghost use Rattle.ziggurat.specs.Tables.{layer_sizes};
ghost use Rattle.ziggurat.specs.Sampling.{Proposes, OnLayer, OnTables, is_inside, edge_words, Attempts, judge_edge, zero_over};

use crate::layer;
use distr::threshold::Threshold;
use layer_tables::LayerTables;

// A proposed magnitude on a layer, with its sign and the place after its words.
#[derive(Clone, Copy, Debug, PartialEq, Eq)]
pub struct Trial {
    pub layer: usize,
    pub positive: bool,
    pub magnitude: u32,
    pub place: usize,
}

// A trial that can be judged: whether it is inside the layer above, and the place after the words of its judging.
#[derive(Clone, Copy, Debug, PartialEq, Eq)]
pub struct Attempt {
    pub trial: Trial,
    pub inside: bool,
    pub after: usize,
}

// How many words the judging reads of a magnitude that is not inside: one on the edge; for 0 the two of its threshold, none where it is full.
#[tactic(auto, unfolding(crate::specs::Sampling::edge_words))]
pub fn edge_words(zero: Threshold, magnitude: u32) -> usize
    ensures { result ≡ edge_words (threshold_value zero) magnitude }
{
    if magnitude != 0 {
        return 1;
    }
    if zero.full {
        return 0;
    }
    2
}

// The threshold by which magnitude 0 passes: that of 0.5 over the first height. Zero is shared by both signs.
pub fn zero_threshold(first_height: f64) -> Threshold
    ensures { result ≡ zero_over first_height }
{
    match probability::threshold_of(0.5 / first_height) {
        Ok(threshold) => threshold,
        Err(_) => Threshold {
            full: false,
            below: 0,
        },
    }
}

// A layer, a coin for the sign, and a magnitude up to the layer's endpoint. The number of layers is a power of two, so the choice of the layer
// masks a word and skips none. The coin is compared and not branched on. Each of the three reads a word: with fewer than
// three left one is lacking. An endpoint of 2^32 or more, among which no choice can be made, is left to the choice, which then lacks a word.
#[tactic(auto, using(crate::proofs::Proposing::few_words, crate::proofs::Proposing::no_magnitude, crate::proofs::Proposing::magnitude_fits))]
fn propose(endpoints: &[u64], words: &[u32], place: usize) -> Option<Trial>
    requires t { T (layer_sizes endpoints.now) }
    requires place_in_bounds { place ≤ length words.now }
    ensures { Proposes endpoints.now words.now place result }
{
    if words.len() - place < 3 {
        return None;
    }
    let layer = (words[place] as usize & (endpoints.len() - 2)) + 1;
    let positive = 0x8000_0000 <= words[place + 1];
    let end = endpoints[layer];
    let taken = words::uniform_below(words, place + 2, std::num::wrapping_add_u64(end, 1))?;
    Some(Trial {
        layer,
        positive,
        magnitude: taken.value as u32,
        place: taken.place,
    })
}

// Whether a magnitude is inside the layer above, where it passes without a word. The endpoints are compared as integers.
fn inside(endpoints: &[u64], layer: usize, magnitude: u32) -> bool
    requires { OnLayer endpoints.now layer magnitude }
    ensures { result ≡ is_inside endpoints.now layer magnitude }
{
    (magnitude as u64 <= endpoints[layer - 1]) & (0 < magnitude)
}

// A proposal, and whether the words that its judging reads are there. Inside the layer above it reads none, and a branch tells so: where the
// next try begins is then known before the division that gave the magnitude is done.
pub(crate) fn make_attempt(
    endpoints: &[u64],
    zero: Threshold,
    words: &[u32],
    place: usize,
) -> Option<Attempt>
    requires t { T (layer_sizes endpoints.now) }
    requires place_in_bounds { place ≤ length words.now }
    ensures { Attempts endpoints.now (threshold_value zero) words.now place result }
{
    let trial = propose(endpoints, words, place)?;
    let next = trial.place;
    if inside(endpoints, trial.layer, trial.magnitude) {
        return Some(Attempt {
            trial,
            inside: true,
            after: next,
        });
    }
    let taken = edge_words(zero, trial.magnitude);
    if words.len() - next < taken {
        return None;
    }
    Some(Attempt {
        trial,
        inside: false,
        after: next + taken,
    })
}

// Whether a trial passes that is not inside the layer above, by the words at its place: 0 by its threshold, another by the test on the edge.
#[tactic(auto, using(crate::proofs::Passing::full_passes, crate::proofs::Passing::zero_passes, crate::proofs::Passing::edge_passes))]
pub(crate) fn passes_edge(
    deviation: f64,
    zero: Threshold,
    tables: LayerTables,
    trial: Trial,
    words: &[u32],
) -> bool
    requires on_tables { OnTables (lent_tables tables) trial.layer trial.magnitude }
    requires zero_value { threshold_value zero ≡ zero_threshold (lent_tables tables) }
    requires magnitude_in_bounds { trial.place + edge_words (threshold_value zero) trial.magnitude ≤ length words.now }
    ensures { judge_edge deviation (lent_tables tables.entry) trial.layer trial.magnitude
        (drop trial.place words.now) ≡ got result (drop (trial.place + edge_words (threshold_value zero) trial.magnitude) words.now) }
{
    let place = trial.place;
    if trial.magnitude == 0 {
        if zero.full {
            return true;
        }
        return words::wide_word(words[place], words[place + 1]) < zero.below;
    }
    let here = layer::layer_at(tables, trial.layer);
    let pdf = tables.curve[trial.magnitude as usize];
    edge::accepts(deviation, here, trial.magnitude, pdf, words[place])
}
