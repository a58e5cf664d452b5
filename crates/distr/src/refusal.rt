// Why a call refuses, under the Rust's names where its errors have one. Callers are told by number: success is 0.
ghost use Rattle.std.specs.Prelude.{◌≡◌, ℕ};
ghost use Rattle.distr.specs.Refusals.{number, number_of};

#[derive(Clone, Copy, Debug, PartialEq, Eq)]
pub enum Refusal {
    // A probability that is not finite or outside 0..1, or two that exceed one.
    InvalidProbabilities,
    // A deviation that is not finite or too small, or whose square is not finite.
    InvalidStandardDeviation,
    // A support above MAX_MAGNITUDE.
    MaximumMagnitudeTooLarge,
    // An eta outside 1 to MAX_ETA.
    InvalidEta,
    // A block size of 0, or one with more categories than a u64 can number.
    InvalidBlockSize,
    // An output longer than MAX_OUTPUT.
    OutputTooLong,
    // Weights over the length.
    InvalidWeight,
    // A length of 0, or no multiple of the block size.
    InvalidBlockLength,
    // A modulus that is not above the largest magnitude.
    ModulusTooSmall,
    // A modulus of 0.
    ModulusZero,
    // An output that is not coefficients times moduli long.
    InvalidCrtShape,
    // A cumulative table that is malformed.
    InvalidCumulativeTable,
    // Layer tables of a wrong length.
    InvalidLayerTables,
    // A sheet that is malformed.
    InvalidSheet,
    // A sampler that making never gives.
    NeverMade,
    // A place past the end of the words.
    PastEnd,
    // A word that is needed is not there.
    OutOfWords,
    // A report's modulus outside its range.
    ModulusOutOfRange,
    // As many counts as limits are wanted.
    CountsLengthMismatch,
    // A residue that is not below the modulus.
    ResidueNotCanonical,
    // An eta other than 2 and 3 for the byte form.
    InvalidCbdEta,
    // Bytes or an output of another length than the byte form's.
    InvalidCbdLength,
    // A request larger than the desk's, or bytes that are no whole number of items.
    InvalidDeskRequest,
    // An endpoint of the layer tables that is wrong.
    InvalidEndpoint,
    // A height of theirs.
    InvalidHeight,
    // A curve value of theirs.
    InvalidCurveValue,
}

impl Refusal {
    // The number by which a call refuses.
    pub fn number(self) -> u32
        ensures { result ≡ number self }
    {
        match self {
            Refusal::InvalidProbabilities => 1,
            Refusal::InvalidStandardDeviation => 2,
            Refusal::MaximumMagnitudeTooLarge => 3,
            Refusal::InvalidEta => 4,
            Refusal::InvalidBlockSize => 5,
            Refusal::OutputTooLong => 6,
            Refusal::InvalidWeight => 7,
            Refusal::InvalidBlockLength => 8,
            Refusal::ModulusTooSmall => 9,
            Refusal::ModulusZero => 10,
            Refusal::InvalidCrtShape => 11,
            Refusal::InvalidCumulativeTable => 12,
            Refusal::InvalidLayerTables => 13,
            Refusal::InvalidSheet => 14,
            Refusal::NeverMade => 21,
            Refusal::PastEnd => 22,
            Refusal::OutOfWords => 23,
            Refusal::ModulusOutOfRange => 24,
            Refusal::CountsLengthMismatch => 25,
            Refusal::ResidueNotCanonical => 26,
            Refusal::InvalidCbdEta => 27,
            Refusal::InvalidCbdLength => 28,
            Refusal::InvalidDeskRequest => 29,
            Refusal::InvalidEndpoint => 30,
            Refusal::InvalidHeight => 31,
            Refusal::InvalidCurveValue => 32,
        }
    }
}

// The number of what a check answers: 0 where nothing is refused.
pub fn number_of(checked: Result<(), Refusal>) -> u32
    ensures { result ≡ number_of checked }
{
    match checked {
        Ok(()) => 0,
        Err(why) => why.number(),
    }
}

// What refuses a call: a refusal, or any number by which callers are told of one.
pub trait Reason: Copy {
    // The number that callers are told.
    ghost refusing: { Self → ℕ };

    fn refusing(self) -> u32
        ensures { result ≡ refusing self };
}

impl Reason for Refusal {
    ghost refusing = { number };

    fn refusing(self) -> u32 {
        self.number()
    }
}

impl Reason for u32 {
    ghost refusing = { λ n. n };

    fn refusing(self) -> u32 {
        self
    }
}
