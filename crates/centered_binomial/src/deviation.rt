// The standard deviation of the centered binomial: the square root of its variance, eta / 2.
ghost use Rattle.std.specs.Prelude.{◌≡◌};
ghost use Rattle.centered_binomial.specs.Binomial.{eta_number};
ghost use Rattle.centered_binomial.specs.Deviation.{binomial_deviation, NearestRoot};

use distr::limits::MAX_ETA;

// The f64 nearest to the root of eta / 2, for eta from 0 to 32, three in a row.
const DEVIATIONS: [[f64; 3]; 11] = [
    [0.0, 0.7071067811865476, 1.0],
    [1.224744871391589, 1.4142135623730951, 1.5811388300841898],
    [1.7320508075688772, 1.8708286933869707, 2.0],
    [2.1213203435596424, 2.23606797749979, 2.345207879911715],
    [2.449489742783178, 2.5495097567963922, 2.6457513110645907],
    [2.7386127875258306, 2.8284271247461903, 2.9154759474226504],
    [3.0, 3.082207001484488, 3.1622776601683795],
    [3.24037034920393, 3.3166247903554, 3.391164991562634],
    [3.4641016151377544, 3.5355339059327378, 3.605551275463989],
    [3.6742346141747673, 3.7416573867739413, 3.8078865529319543],
    [3.872983346207417, 3.9370039370059056, 4.0],
];

// The f64 nearest to the root of eta / 2, for each eta that has a sampler. No sampler has another eta: 0 gives 0.0, which is its root, and so
// does any eta above 32.
pub fn standard_deviation(eta: u32) -> f64
    ensures { (result ≡ binomial_deviation eta) × (eta_number eta ≡ 0 → NearestRoot eta result) }
{
    if eta <= MAX_ETA {
        let at = eta as usize;
        let row = DEVIATIONS[at / 3];
        row[at % 3]
    } else {
        0.0
    }
}
