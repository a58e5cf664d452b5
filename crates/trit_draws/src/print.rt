// Lines on standard output.
use crate::tally::Tally;
use std::io;

// A number and what follows it.
fn number_then(rt: &impl Print, number: u64, rest: &[u8]) -> io::Result<()> {
    print!(rt; "{number}")?;
    rt.write_all(rest)
}

// A line: the list's kind, how many words it has, the place, and the tally.
pub(crate) fn line(
    rt: &impl Print,
    kind: u32,
    count: usize,
    place: usize,
    tally: Tally,
) -> io::Result<()> {
    number_then(rt, kind as u64, b" ")?;
    number_then(rt, count as u64, b" ")?;
    number_then(rt, place as u64, b": ")?;
    number_then(rt, tally.draws, b" draws, ")?;
    number_then(rt, tally.same, b" the same; ")?;
    number_then(rt, tally.succeeded, b" ")?;
    number_then(rt, tally.refused_modulus, b" ")?;
    number_then(rt, tally.past_words, b" ")?;
    number_then(rt, tally.short_of_words, b"; ")?;
    number_then(rt, tally.sum, b"\n")
}
