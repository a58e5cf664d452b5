// The distribution of independent error coefficients.
#[derive(Clone, Copy, Debug, PartialEq)]
pub enum ErrorDistribution {
    // Discrete Gaussian with this deviation.
    Gaussian { standard_deviation: f64 },
    // Ones of eta bits minus ones of the next eta bits.
    CenteredBinomial { eta: u32 },
}
