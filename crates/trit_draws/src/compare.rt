// Whether two draws are the same: their answers, and what their outputs hold.
ghost use Rattle.std.specs.Prelude.{◌≡◌, true, ◌&&◌, ◌==◌, nat_eq};

use primus_distr::Answer;

// Two answers, field by field.
pub(crate) fn same_answers(one: Answer, other: Answer) -> bool
    ensures { result ≡ (one.number == other.number && one.place == other.place && nat_eq one.skipped_words other.skipped_words && nat_eq one.skipped_bytes other.skipped_bytes) }
{
    (one.number == other.number)
        & (one.place == other.place)
        & (one.skipped_words == other.skipped_words)
        & (one.skipped_bytes == other.skipped_bytes)
}

// Two outputs of signed values, element by element.
pub(crate) fn same_signed(one: &[i64], other: &[i64]) -> bool
    ensures { (result ≡ true → one.now ≡ other.now) × (one.now ≡ other.now → result ≡ true) }
{
    one == other
}

// Two outputs of residues, element by element.
pub(crate) fn same_residues(one: &[u64], other: &[u64]) -> bool
    ensures { (result ≡ true → one.now ≡ other.now) × (one.now ≡ other.now → result ≡ true) }
{
    one == other
}
