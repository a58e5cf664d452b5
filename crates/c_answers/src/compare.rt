// The comparison of an answer with the stored one.
ghost use Rattle.std.specs.Prelude.{◌≡◌, length, nat_eq, slice_index};
ghost use Rattle.c_answers.specs.Answer.{expected as expected_at, all_below, agreeing};

// What an output holds before the call; no coefficient is so large.
pub(crate) const HELD: u64 = 9999;

// The number at an index, or 0 past the end.
pub(crate) fn value_at(values: &[u64], i: usize) -> u64
    ensures { result ≡ slice_index values.now i }
{
    if i < values.len() { values[i] } else { 0 }
}

// What an element of the output must be: for number 0 the stored coefficient, after a refusal what it held.
fn expected(coefficients: &[u64], number: u32, i: usize) -> u64
    ensures { result ≡ expected_at coefficients.now number i }
{
    if number == 0 {
        value_at(coefficients, i)
    } else {
        HELD
    }
}

// Whether each element of the output is what it must be.
fn is_expected(coefficients: &[u64], number: u32, output: &[u64]) -> bool
    ensures { result ≡ all_below (length output.now)
        (λ i. nat_eq (slice_index output.now i) (expected_at coefficients.now number i)) }
{
    let mut equal = true;
    for i in 0..output.len() {
        equal = equal & (output[i] == expected(coefficients, number, i));
    }
    equal
}

// Whether a stored answer, the number and for number 0 the coefficients, is this one.
pub(crate) fn agrees(stored: &[u64], number: u32, output: &[u64]) -> bool
    ensures { result ≡ agreeing stored.now number output.now }
{
    if stored.len() == 0 {
        return false;
    }
    let coefficients = &stored[1..];
    let count = if number == 0 { output.len() } else { 0 };
    (stored[0] == number as u64)
        & (coefficients.len() == count)
        & is_expected(coefficients, number, output)
}
