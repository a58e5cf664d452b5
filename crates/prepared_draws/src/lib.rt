// Inner crate of primus_distr: the draws by a prepared method, signed, of residues of one modulus, and of several: what both samplers do once a sampler
// is tested, and what a call does that makes its method itself. What stands in the method's place refuses each of them first, by its number: a refusal's, or
// any other but 0, by which the answer would say success where nothing is drawn.
#![tactic(auto)]

pub mod crt_draw;
pub mod encoded;
pub mod signed;
