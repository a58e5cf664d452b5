// Lines on standard output.
use distr::answer::Answer;
use distr::refusal::Refusal;
use gaussian_core::encode::magnitude;
use std::io;

// The label and two numbers.
pub(crate) fn head(rt: &impl Print, label: &[u8], number: u32, second: u64) -> io::Result<()> {
    rt.write_all(label)?;
    print!(rt; ": {number} {second}")
}

// The end of a line.
pub(crate) fn end(rt: &impl Print) -> io::Result<()> {
    print!(rt; "\n")
}

// A whole line of a sampler that is made: what was derived for it.
pub(crate) fn made(rt: &impl Print, label: &[u8], derived: u64) -> io::Result<()> {
    head(rt, label, 0, derived)?;
    end(rt)
}

// A whole line of a making that is refused.
pub(crate) fn refused(rt: &impl Print, label: &[u8], why: Refusal) -> io::Result<()> {
    head(rt, label, why.number(), 0)?;
    end(rt)
}

// A space and a number.
pub(crate) fn unsigned(rt: &impl Print, value: u64) -> io::Result<()> {
    print!(rt; " {value}")
}

// A space and a signed number.
fn signed(rt: &impl Print, value: i64) -> io::Result<()> {
    if value < 0 {
        print!(rt; " -")?;
    } else {
        print!(rt; " ")?;
    }
    let above = magnitude(value);
    print!(rt; "{above}")
}

// The rest of a line: signed numbers.
fn coefficients(rt: &impl Print, values: &[i64]) -> io::Result<()> {
    for value in values {
        signed(rt, *value)?;
    }
    end(rt)
}

// A whole line of a signed draw.
pub(crate) fn line(
    rt: &impl Print,
    label: &[u8],
    number: u32,
    place: usize,
    values: &[i64],
) -> io::Result<()> {
    head(rt, label, number, place as u64)?;
    coefficients(rt, values)
}

// A whole line of a signed draw, with the words and the bytes that it skipped before its values.
pub(crate) fn line_with_skipped(
    rt: &impl Print,
    label: &[u8],
    answer: Answer,
    values: &[i64],
) -> io::Result<()> {
    head(rt, label, answer.number, answer.place as u64)?;
    unsigned(rt, answer.skipped_words)?;
    unsigned(rt, answer.skipped_bytes)?;
    coefficients(rt, values)
}
