// The call that draws a polynomial from bytes (02 [3]).
ghost use Rattle.std.specs.Prelude.{◌≡◌};
ghost use Rattle.distr.specs.SamplePolyCbd.{sample_poly_cbd};

use distr::refusal::number_of;
use poly_cbd::sample_poly_cbd;

// A polynomial from bytes: its number is handed back, and a refusal writes nothing.
pub fn beside_sample_poly_cbd(output: &mut [u64], eta: u32, bytes: &[u8]) -> u32
    ensures { (result, output.new) ≡ sample_poly_cbd eta bytes.now output.old }
{
    number_of(sample_poly_cbd(output, eta, bytes))
}
