// The library's one public face, under the Rust's names. Behind it every call refuses by document 01's numbers, in its order: 21 for any
// value that making never gives, and what is refused changes neither output nor place.
#![tactic(auto)]

mod binomial;
mod gaussian;
mod ternary_sampler;

pub use binomial::{CenteredBinomial, MadeCenteredBinomial};
pub use centered_binomial::CenteredBinomialParameters;
pub use common::{residues, signed};
pub use crt::{RowRange, crt_row, crt_row_range};
pub use distr::answer::Answer;
pub use distr::error_distribution::ErrorDistribution;
pub use distr::gaussian_parameters::GaussianParameters;
pub use distr::refusal::{Refusal, number_of};
pub use distr::secret_key_distr::{BlockOccupancy, SecretKeyDistr};
pub use error_sampler::{ErrorSampler, MadeErrorSampler};
pub use gaussian::{MadeSignedDiscreteGaussian, SignedDiscreteGaussian};
pub use layer_tables::{LayerFault, check_layer_tables};
pub use poly_cbd::sample_poly_cbd;
pub use secret_key_sampler::{MadeSecretKeySampler, SecretKeySampler, is_binary, is_ternary};
pub use sheet_request::draw_question;
pub use stats::{Report, residue_report};
pub use ternary::ternary::{TernaryEnds, TernaryValue};
pub use ternary_sampler::{MadeTernarySampler, TernarySampler};
