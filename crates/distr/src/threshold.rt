// The threshold of a probability, 0 to 2^64. Where full is set it is 2^64, which a u64 cannot hold, and below is 0.
// A flag beside a number, and no enum of the two: a sampler's public field holds it, and draws judge each of its values, also a full one with another below,
// which a narrower type would take away.
#[derive(Clone, Copy, Debug, PartialEq, Eq)]
pub struct Threshold {
    pub full: bool,
    pub below: u64,
}
