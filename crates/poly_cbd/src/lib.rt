// An inner crate of the library primus_distr: the byte form of the centered binomial (02 [3]), Algorithm 8 of FIPS 203, SamplePolyCBD.
#![tactic(auto)]

mod coefficient;

ghost use Rattle.std.specs.Prelude.{◌≡◌, length};
ghost use Rattle.distr.specs.Constants.{cbd_coefficients};
ghost use Rattle.distr.specs.Refusals.{number_of};
ghost use Rattle.distr.specs.SamplePolyCbd.{cbd_number, polynomial_of, sample_poly_cbd};
ghost use Rattle.poly_cbd.specs.Coefficient.{GoodBytes};

use coefficient::coefficient;
use distr::refusal::Refusal;

// The coefficients of a polynomial, the standard's n.
const N: usize = 256;

// What refuses a call: 27, then 28. That 64 * eta fits is known once eta is.
#[tactic(auto, unfolding(distr::specs::SamplePolyCbd::cbd_number, distr::specs::Numbers::first_of))]
fn check_cbd(eta: u32, byte_length: usize, output_length: usize) -> Result<(), Refusal>
    ensures { number_of result ≡ cbd_number eta byte_length output_length }
{
    if !((eta == 2) | (eta == 3)) {
        return Err(Refusal::InvalidCbdEta);
    }
    if (byte_length != 64 * eta as usize) | (output_length != N) {
        return Err(Refusal::InvalidCbdLength);
    }
    Ok(())
}

// Every coefficient, in the standard's order.
fn fill(output: &mut [u64], eta: u32, bytes: &[u8])
    requires { GoodBytes eta (length bytes.now) × (length output.old ≡ cbd_coefficients) }
    ensures { output.new ≡ polynomial_of eta bytes.now }
{
    for i in 0..N {
        output[i] = coefficient(bytes, eta, i);
    }
}

// A polynomial of 256 coefficients modulo 3329 from 64 * eta bytes, for eta 2 and 3. A refusal, 27 or 28, writes nothing. Each eta has a loop in
// which it is a constant.
pub fn sample_poly_cbd(output: &mut [u64], eta: u32, bytes: &[u8]) -> Result<(), Refusal>
    ensures { (number_of result, output.new) ≡ sample_poly_cbd eta bytes.now output.old }
{
    check_cbd(eta, bytes.len(), output.len())?;
    if eta == 2 {
        fill(output, 2, bytes);
    } else {
        fill(output, 3, bytes);
    }
    Ok(())
}
