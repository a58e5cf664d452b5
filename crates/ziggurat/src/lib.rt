// Inner crate of primus_distr: the layered Gaussian draw, by its lent tables, whatever the output holds. This file is generic over the output, the
// others are one text for every output.
#![tactic(auto)]

ghost use Rattle.std.specs.Prelude.{◌≡◌, length, drop};
ghost use Rattle.distr.specs.Draw.{outcome};
ghost use Rattle.distr.specs.Answers.{sums, reported};
ghost use Rattle.distr.specs.Skipped.{skipped_words};
ghost use Rattle.distr.specs.Layered.{passed_layered};
ghost use Rattle.ziggurat.specs.Tables.{tables, layered_draw};

use distr::answer::{Answer, refused, refused_at, succeeded_after};
use distr::gaussian_parameters::GaussianParameters;
use distr::refusal::Refusal;
use layer_tables::{LayerTables, check_layer_tables, index_with, refusal_of};
use output::{Output, clear};
use sampling::zero_threshold;

mod layer;
pub mod sampling;

// Draws coefficients, held as the encoding says. The tables are judged first, then the words are read try by try, and each trial's coefficient
// is stored. One inside the layer above passes; one at the edge is stored before it is judged, so that less is kept meanwhile, and counted where
// it passes: else the next is written over it. The words from the place on are a slice of their own, which the compiler keeps at hand. Each try
// reads a word or lacks one, so the words left are a measure. What was stored is cleared where the words run out. A try uses three words and those
// of its judging, whether it is kept or not: the words read that none used are those that the choices passed over. So the words used are counted,
// for which the place before a try need not be kept at hand.
#[tactic(auto, using(crate::proofs::Turning::draw_refused, crate::proofs::Turning::heights_there, crate::proofs::Turning::place_bytes, crate::proofs::Turning::place_within, crate::proofs::Turning::turn_full, crate::proofs::Turning::turn_reports))]
pub fn sample_ziggurat_to<T: Output>(
    output: &mut [T],
    encoding: T::Encoding,
    parameters: GaussianParameters,
    endpoints: &[u64],
    heights: &[f64],
    curve: &[f64],
    words: &[u32],
    place: usize,
) -> Answer
    ensures output_after { outcome result output.new ≡ layered_draw (T.held encoding) parameters
        (tables endpoints.now heights.now curve.now) words.now place output.old }
    ensures result_value { sums result ≡ reported result.number (skipped_words (passed_layered parameters.standard_deviation
        (tables endpoints.now heights.now curve.now) (length output.old) (drop place words.now))) }
{
    let checked = check_layer_tables(parameters.maximum_magnitude, endpoints, heights, curve);
    let own = refusal_of(checked);
    if let Err(why) = numbers::check_draw(words.len(), place, output.len(), own) {
        return refused_at(why, place, index_with(why, checked));
    }
    let tables = LayerTables {
        endpoints,
        heights,
        curve,
    };
    let deviation = parameters.standard_deviation;
    let zero = zero_threshold(heights[0]);
    let from = &words[place..];
    let n = output.len();
    let mut i: usize = 0;
    let mut at: usize = 0;
    let mut used: usize = 0;
    // The index moves only where a trial passes, so it is counted by hand.
    while i < n {
        let Some(attempt) = sampling::make_attempt(endpoints, zero, from, at) else {
            clear(output);
            return refused(Refusal::OutOfWords, place);
        };
        let trial = attempt.trial;
        used += attempt.after - trial.place + 3;
        // Stored in both arms, since one store before the branch is slower: each arm then goes on by itself.
        if attempt.inside {
            output[i] = T::coefficient(encoding, trial.positive, trial.magnitude as u64);
            i += 1;
        } else {
            output[i] = T::coefficient(encoding, trial.positive, trial.magnitude as u64);
            let passed = sampling::passes_edge(deviation, zero, tables, trial, from);
            i += passed as usize;
        }
        at = attempt.after;
    }
    succeeded_after(place + at, (at - used) as u64, 0)
}
