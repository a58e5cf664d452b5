// The sums over the residues. The residues of a block are few enough for sums of 64 bits, which the compiler takes several at a time; the blocks are
// added up in halves. The square of a magnitude 2^26 u + l is 2^52 u^2 + 2^27 u l + l^2: three products that fit 64 bits.
ghost use Rattle.std.specs.Prelude.{◌≡◌, ◌+◌, ◌*◌, ◌^◌, ◌<◌, ◌≤◌, true, length};
ghost use Rattle.distr.specs.Constants.{output_limit, report_modulus_limit};
ghost use Rattle.stats.specs.Centered.{all_below};
ghost use Rattle.stats.specs.Sums.{value_of, at_most, above_half, size_of, residue_sums, block_sums, squares_from, TotalsOf, FitsTotals};

use crate::wide::{Halves, add, scaled};

// Residues of a block: with a modulus of at most 2^53, sums of 1,024 residues fit 64 bits.
const BLOCK: usize = 1024;

// What a block's residues add up to: the residues, how many of them are above half the modulus, and the products of the two parts of each
// magnitude.
#[derive(Clone, Copy, Debug, PartialEq, Eq)]
pub(crate) struct BlockSums {
    pub residues: u64,
    pub negatives: u64,
    pub upper: u64,
    pub cross: u64,
    pub lower: u64,
}

// The sums over all residues: of the residues, of the modulus once for each residue above half of it, and of the squares.
#[derive(Clone, Copy, Debug, PartialEq, Eq)]
pub(crate) struct Totals {
    pub residues: Halves,
    pub moduli: Halves,
    pub squares: Halves,
}

// Whether each residue is below the modulus. All of them are judged, without leaving early.
pub(crate) fn all_below(residues: &[u64], modulus: u64) -> bool
    ensures { result ≡ all_below modulus residues.now }
{
    let mut ok = true;
    for residue in residues {
        ok = ok & (*residue < modulus);
    }
    ok
}

// 1 where a is at most b, else 0: 2^63 + b - a reaches 2^63 just then. No comparison, since the plain instruction set has none for several 64-bit
// numbers at once.
pub(crate) fn at_most(a: u64, b: u64) -> u64
    requires { (a ≤ 2 ^ 53) × (b ≤ 2 ^ 53) }
    ensures { result ≡ at_most a b }
{
    (0x8000_0000_0000_0000 + b - a) / 0x8000_0000_0000_0000
}

// 1 for a residue above half the modulus, else 0.
fn above_half(modulus: u64, residue: u64) -> u64
    requires { (modulus ≤ report_modulus_limit) × (residue < modulus) }
    ensures { result ≡ above_half modulus residue }
{
    at_most(modulus / 2 + 1, residue)
}

// The magnitude of a residue's centered value, which is that of the Rust's `to_centered`.
fn size_of(modulus: u64, residue: u64) -> u64
    requires { (modulus ≤ report_modulus_limit) × (residue < modulus) }
    ensures { result ≡ size_of modulus residue }
{
    if above_half(modulus, residue) == 0 {
        return residue;
    }
    modulus - residue
}

// What one residue adds to the sums. The upper part of its magnitude is taken modulo 2^32, which does not change it, so that the compiler
// multiplies 32 bits.
fn sums_of(modulus: u64, residue: u64) -> BlockSums
    requires { (modulus ≤ report_modulus_limit) × (residue < modulus) }
    ensures { result ≡ residue_sums modulus residue }
{
    let size = size_of(modulus, residue);
    let upper = size / 0x400_0000 % 0x1_0000_0000;
    let lower = size % 0x400_0000;
    BlockSums {
        residues: residue,
        negatives: above_half(modulus, residue),
        upper: upper * upper,
        cross: upper * lower,
        lower: lower * lower,
    }
}

// The sums of one block.
fn block_sums(block: &[u64], modulus: u64) -> BlockSums
    requires { (length block.now ≤ 1024) × (modulus ≤ report_modulus_limit) × (all_below modulus block.now ≡ true) }
    ensures { result ≡ block_sums modulus block.now }
{
    let mut residues: u64 = 0;
    let mut negatives: u64 = 0;
    let mut upper: u64 = 0;
    let mut cross: u64 = 0;
    let mut lower: u64 = 0;
    for residue in block {
        let one = sums_of(modulus, *residue);
        residues += one.residues;
        negatives += one.negatives;
        upper += one.upper;
        cross += one.cross;
        lower += one.lower;
    }
    BlockSums {
        residues,
        negatives,
        upper,
        cross,
        lower,
    }
}

// The sum of the squares of a block, out of the sums of products.
fn block_squares(block: BlockSums) -> Halves
    ensures { value_of result ≡ squares_from block }
{
    let upper = scaled(block.upper, 0x10_0000_0000_0000, 0x1000);
    let cross = scaled(block.cross, 0x800_0000, 0x20_0000_0000);
    let products = add(upper, cross);
    add(
        products,
        Halves {
            high: 0,
            low: block.lower,
        },
    )
}

// No residues.
fn no_totals() -> Totals
    ensures { (value_of result.residues ≡ 0) × (value_of result.moduli ≡ 0) × (value_of result.squares ≡ 0) }
{
    Totals {
        residues: Halves { high: 0, low: 0 },
        moduli: Halves { high: 0, low: 0 },
        squares: Halves { high: 0, low: 0 },
    }
}

// The sums with one block more.
fn with_block(totals: Totals, block: BlockSums, modulus: u64) -> Totals
    requires { FitsTotals totals × (modulus * block.negatives < 2 ^ 64) }
    ensures residues_value { value_of result.residues ≡ value_of totals.residues + block.residues }
    ensures moduli_value { value_of result.moduli ≡ value_of totals.moduli + modulus * block.negatives }
    ensures squares_value { value_of result.squares ≡ value_of totals.squares + squares_from block }
{
    let residues = totals.residues;
    let moduli = totals.moduli;
    let squares = totals.squares;
    Totals {
        residues: add(
            residues,
            Halves {
                high: 0,
                low: block.residues,
            },
        ),
        moduli: add(
            moduli,
            Halves {
                high: 0,
                low: modulus * block.negatives,
            },
        ),
        squares: add(squares, block_squares(block)),
    }
}

// The sums over all residues, a block after the other.
pub(crate) fn sum_residues(residues: &[u64], modulus: u64) -> Totals
    requires { (length residues.now ≤ output_limit) × (modulus ≤ report_modulus_limit) × (all_below modulus residues.now ≡ true) }
    ensures { TotalsOf modulus residues.now result }
{
    let mut totals = no_totals();
    for block in residues.chunks(BLOCK) {
        totals = with_block(totals, block_sums(block, modulus), modulus);
    }
    totals
}
