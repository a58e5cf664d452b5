// The Gaussian record: the deviation and its support M side by side.
#[derive(Clone, Copy, Debug, PartialEq)]
pub struct GaussianParameters {
    pub standard_deviation: f64,
    pub maximum_magnitude: u64,
}
