// The families of the distributions: binary, ternary and Gaussian.
ghost use Rattle.std.specs.Prelude.{◌≡◌};
ghost use Rattle.secret_key_method.specs.Family.{family_of, is_binary, is_ternary};

use distr::secret_key_distr::SecretKeyDistr;

// Which coefficients a distribution gives.
#[derive(Clone, Copy, Debug, PartialEq, Eq)]
enum Family {
    // 0 and 1.
    Binary,
    // Also -1.
    Ternary,
    // Up to the support of a deviation.
    Gaussian,
}

// The family of a distribution.
fn family_of(distr: SecretKeyDistr) -> Family
    ensures { result ≡ family_of distr }
{
    match distr {
        SecretKeyDistr::UniformBinary
        | SecretKeyDistr::Binary { .. }
        | SecretKeyDistr::FixedHammingWeightBinary { .. }
        | SecretKeyDistr::BlockBinary { .. } => Family::Binary,
        SecretKeyDistr::SparseTernary
        | SecretKeyDistr::UniformTernary
        | SecretKeyDistr::Ternary { .. }
        | SecretKeyDistr::FixedHammingWeightTernary { .. }
        | SecretKeyDistr::FixedCompositionTernary { .. } => Family::Ternary,
        SecretKeyDistr::Gaussian { .. } => Family::Gaussian,
    }
}

// Whether a distribution gives only 0 and 1.
pub fn is_binary(distr: SecretKeyDistr) -> bool
    ensures { result ≡ is_binary distr }
{
    family_of(distr) == Family::Binary
}

// Whether a distribution is of the ternary family.
pub fn is_ternary(distr: SecretKeyDistr) -> bool
    ensures { result ≡ is_ternary distr }
{
    family_of(distr) == Family::Ternary
}
