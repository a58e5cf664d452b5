// Samplers that are made or refused.
use crate::print;
use centered_binomial::CenteredBinomialParameters;
use std::io;

// The number and M, for which 0 stands after a refusal.
pub(crate) fn gaussian(rt: &impl Print, label: &[u8], deviation: f64) -> io::Result<()> {
    match gaussian_core::parameters::new_parameters(deviation) {
        Ok(parameters) => print::made(rt, label, parameters.maximum_magnitude),
        Err(why) => print::refused(rt, label, why),
    }
}

// The number and eta, for which 0 stands after a refusal.
pub(crate) fn centered_binomial(rt: &impl Print, label: &[u8], eta: u32) -> io::Result<()> {
    match CenteredBinomialParameters::new(eta) {
        Ok(parameters) => print::made(rt, label, parameters.eta as u64),
        Err(why) => print::refused(rt, label, why),
    }
}
