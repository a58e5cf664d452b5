// Serves comparisons, not a user: the calls that a comparison beside the Rust, or beside plain C, makes: a draw by kind, with its sampler made in the call.
// A draw answers the number, and writes the place through new_place, the old one where the draw is refused, and the index that goes with the number of
// a bad layer list through index, 0 with every other number. It writes the words that its choices passed over and the
// bytes that it rejected through skipped_words and skipped_bytes: zeros where it is refused. A report writes its sign and the halves of its sums, zeros
// where it is refused, and the counts, which are then left. A polynomial from bytes answers the number alone.
// What a foreign caller must keep, since no contract can ask it of one: every pointer, that of an empty slice too, is aligned for its
// elements and never null; it is valid for its length, for writing where the slice is the output or the counts; and
// these, new_place and whatever else a call writes through overlap neither each other nor anything else that the call is lent.
#![tactic(auto)]

mod crt_draw;
mod encoded;
mod kind;
mod polynomial;
mod report;
mod signed;

ghost use Rattle.std.specs.Prelude.{◌≡◌};
ghost use Rattle.any_sampler.specs.Either.{any_number};
ghost use Rattle.beside.specs.Calls.{named};

pub use crt_draw::beside_crt;
pub use encoded::beside_encoded;
pub use polynomial::beside_sample_poly_cbd;
pub use report::beside_report;
pub use signed::beside_signed;

// The number of making a sampler of a kind; 14 where the kind names no distribution.
pub fn beside_make(kind: u32, a: usize, b: usize, p: f64, q: f64) -> u32
    ensures { result ≡ any_number (named kind a b p q) }
{
    match kind::by_kind(kind, a, b, p, q).prepare() {
        Ok(_) => 0,
        Err(why) => why.number(),
    }
}
