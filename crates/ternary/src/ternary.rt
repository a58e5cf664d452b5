// `Ternary`: the ends of two thresholds, and what they ask for.
ghost use Rattle.std.specs.Prelude.{◌≡◌};
ghost use Rattle.words.specs.Reading.{threshold_value};
ghost use Rattle.ternary.specs.Sampler.{sampler_of, reads, plan_of};

use distr::threshold::Threshold;

// A value that needs no words.
#[derive(Clone, Copy, Debug, PartialEq, Eq)]
pub enum TernaryValue {
    MinusOne,
    Zero,
    One,
}

// Cumulative ends of three outcomes, the Rust's `TernarySampler`. The ends that a u64 cannot hold are variants of their own.
#[derive(Clone, Copy, Debug, PartialEq, Eq)]
pub enum TernaryEnds {
    // One value for every coefficient, and no word read.
    Constant(TernaryValue),
    // -1 for a 64-bit word below negative_end, else 1.
    Nonzero { negative_end: u64 },
    // -1 for a 64-bit word below negative_end, 1 for another below nonzero_end, else 0.
    General { negative_end: u64, nonzero_end: u64 },
}

// What a draw that reads gives for a 64-bit word: -1 below first_end, else `above`, and 1 more where the word is below second_end.
#[derive(Clone, Copy, Debug, PartialEq, Eq)]
pub struct WordPlan {
    pub above: u32,
    pub first_end: u64,
    pub second_end: u64,
}

// What the ends ask for, whatever the type of the output.
#[derive(Clone, Copy, Debug, PartialEq, Eq)]
pub enum Plan {
    // One value for every coefficient, and no word read.
    Constant(TernaryValue),
    // A 64-bit word for each coefficient.
    Read(WordPlan),
}

impl Plan {
    // Whether the draw reads words.
    pub(crate) fn reads(self) -> bool
        ensures { result ≡ reads self }
    {
        matches!(self, Plan::Read(_))
    }
}

// The plan of each kind of ends. Where no word gives 0 none is below the second end, and those above the first give 1 all the same: so one
// sum serves both kinds, and the loop has nothing to branch on.
#[tactic(auto, unfolding(crate::specs::Sampler::plan_of))]
pub fn plan_of(ends: TernaryEnds) -> Plan
    ensures { result ≡ plan_of ends }
{
    match ends {
        TernaryEnds::Constant(value) => Plan::Constant(value),
        TernaryEnds::Nonzero { negative_end } => Plan::Read(WordPlan {
            above: 1,
            first_end: negative_end,
            second_end: 0,
        }),
        TernaryEnds::General {
            negative_end,
            nonzero_end,
        } => Plan::Read(WordPlan {
            above: 0,
            first_end: negative_end,
            second_end: nonzero_end,
        }),
    }
}

// The ends of the thresholds of -1 and 1. The ends are judged here, so that the loops compare u64 alone.
pub fn from_thresholds(negative: Threshold, positive: Threshold) -> TernaryEnds
    ensures { result ≡ sampler_of (threshold_value negative) (threshold_value positive) }
{
    if negative.full {
        return TernaryEnds::Constant(TernaryValue::MinusOne);
    }
    if !positive.full & (negative.below == 0) & (positive.below == 0) {
        return TernaryEnds::Constant(TernaryValue::Zero);
    }
    if positive.full {
        return TernaryEnds::Constant(TernaryValue::One);
    }
    if 0xffff_ffff_ffff_ffff - negative.below < positive.below {
        return TernaryEnds::Nonzero {
            negative_end: negative.below,
        };
    }
    TernaryEnds::General {
        negative_end: negative.below,
        nonzero_end: negative.below + positive.below,
    }
}
