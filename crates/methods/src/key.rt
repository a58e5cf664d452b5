// When two methods are the same, and which of them CRT draws serve.
ghost use Rattle.std.specs.Prelude.{◌≡◌};
ghost use Rattle.methods.specs.Keys.{same_key, method_key, is_binomial, is_served};

use crate::SamplingMethod;

// Whether two methods are the same: one kind with the same numbers, the deviations as f64 compares them.
#[tactic(auto, using(crate::proofs::Equal::equal_same))]
pub fn same_method(a: SamplingMethod, b: SamplingMethod) -> bool
    ensures { result ≡ same_key (method_key a) (method_key b) }
{
    a == b
}

// Whether the method is the centered binomial's, whose residues are a CRT draw of one row.
pub fn is_binomial(method: SamplingMethod) -> bool
    ensures { result ≡ is_binomial method }
{
    matches!(method, SamplingMethod::CenteredBinomial(_))
}

// Whether CRT draws serve the method.
pub fn is_served(method: SamplingMethod) -> bool
    ensures { result ≡ is_served method }
{
    matches!(
        method,
        SamplingMethod::Gaussian(_) | SamplingMethod::CenteredBinomial(_)
    )
}
