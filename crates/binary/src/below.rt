// Ones and zeros by one end of 64-bit words.
ghost use Rattle.std.specs.Prelude.{◌≡◌};
ghost use Rattle.binary.specs.Below.{one_below, end_of};

// 1 where the word is below the end, whose last bit is given apart, else 0. A word is below an end where its half is below the end's half,
// both rounded up for an odd end and down for an even one; what the bound leaves then has its top bit set. Sums and shifts go over several
// words at once, which a comparison of 64 bits does not.
pub fn one_below(word: u64, below: u64, odd: bool) -> u64
    ensures { result ≡ one_below (end_of below odd) word }
{
    let last = odd as u64;
    let half = word / 2 + (word & last);
    let bound = 0x7fff_ffff_ffff_ffff + below / 2 + last;
    (bound - half) / 0x8000_0000_0000_0000
}
