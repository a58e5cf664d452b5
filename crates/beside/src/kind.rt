// The distribution that a kind of the calls names.
ghost use Rattle.std.specs.Prelude.{◌≡◌};
ghost use Rattle.beside.specs.Calls.{named};

use any_sampler::AnyDistr;
use distr::error_distribution::ErrorDistribution;
use distr::secret_key_distr::{BlockOccupancy, SecretKeyDistr};

// The distribution of a kind, from the fields that it uses; 14 where it names none. An eta above 32 is refused, whatever it is, and passes as 33.
pub fn by_kind(kind: u32, a: usize, b: usize, p: f64, q: f64) -> AnyDistr
    ensures { result ≡ named kind a b p q }
{
    match kind {
        1 => AnyDistr::Secret(SecretKeyDistr::UniformBinary),
        2 => AnyDistr::Secret(SecretKeyDistr::SparseTernary),
        3 => AnyDistr::Secret(SecretKeyDistr::UniformTernary),
        4 => AnyDistr::Secret(SecretKeyDistr::FixedHammingWeightBinary { hamming_weight: a }),
        5 => AnyDistr::Secret(SecretKeyDistr::BlockBinary {
            block_size: a,
            occupancy: BlockOccupancy::AtMostOne,
        }),
        6 => AnyDistr::Secret(SecretKeyDistr::BlockBinary {
            block_size: a,
            occupancy: BlockOccupancy::ExactlyOne,
        }),
        7 => AnyDistr::Secret(SecretKeyDistr::FixedHammingWeightTernary { hamming_weight: a }),
        8 => AnyDistr::Secret(SecretKeyDistr::FixedCompositionTernary {
            negative_one_weight: a,
            one_weight: b,
        }),
        9 => {
            let eta = if a <= 32 { a as u32 } else { 33 };
            AnyDistr::Error(ErrorDistribution::CenteredBinomial { eta })
        }
        10 => AnyDistr::Secret(SecretKeyDistr::Binary { one_probability: p }),
        11 => AnyDistr::Secret(SecretKeyDistr::Ternary {
            negative_one_probability: p,
            one_probability: q,
        }),
        12 => AnyDistr::Secret(SecretKeyDistr::Gaussian {
            standard_deviation: p,
        }),
        13 => AnyDistr::Error(ErrorDistribution::Gaussian {
            standard_deviation: p,
        }),
        0 | 14..=0xffff_ffff => AnyDistr::Unknown,
    }
}
