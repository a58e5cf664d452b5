// Lines on standard output.
use primus_distr::{Answer, LayerFault, Report};
use std::io;

// The name, the number and the place.
fn head(rt: &impl Print, name: &[u8], number: u32, place: usize) -> io::Result<()> {
    rt.write_all(name)?;
    print!(rt; ": {number} {place}")
}

// The end of a line.
fn end(rt: &impl Print) -> io::Result<()> {
    print!(rt; "\n")
}

// A space and a number.
fn unsigned(rt: &impl Print, value: u64) -> io::Result<()> {
    print!(rt; " {value}")
}

// A space and a coefficient: those of this example that are negative are -2 and -1.
fn signed(rt: &impl Print, value: i64) -> io::Result<()> {
    if value == -2 {
        print!(rt; " -2")
    } else if value == -1 {
        print!(rt; " -1")
    } else if 0 <= value {
        unsigned(rt, value as u64)
    } else {
        print!(rt; " ?")
    }
}

// A line of a number alone, with the place 0.
pub(crate) fn number_line(rt: &impl Print, name: &[u8], number: u32) -> io::Result<()> {
    head(rt, name, number, 0)?;
    end(rt)
}

// A line of a number and the index that goes with it.
pub(crate) fn index_line(
    rt: &impl Print,
    name: &[u8],
    number: u32,
    index: usize,
) -> io::Result<()> {
    head(rt, name, number, index)?;
    end(rt)
}

// A line of what a check of layer tables says: both are 0 for good ones.
pub(crate) fn tables_line(
    rt: &impl Print,
    name: &[u8],
    checked: Result<(), LayerFault>,
) -> io::Result<()> {
    match checked {
        Ok(()) => index_line(rt, name, 0, 0),
        Err(fault) => index_line(rt, name, fault.refusal.number(), fault.index),
    }
}

// A line of a signed draw.
pub(crate) fn signed_line(
    rt: &impl Print,
    name: &[u8],
    answer: Answer,
    values: &[i64],
) -> io::Result<()> {
    head(rt, name, answer.number, answer.place)?;
    for value in values {
        signed(rt, *value)?;
    }
    end(rt)
}

// The numbers that end a line.
fn rest(rt: &impl Print, values: &[u64]) -> io::Result<()> {
    for value in values {
        unsigned(rt, *value)?;
    }
    end(rt)
}

// A line of residues.
pub(crate) fn line(rt: &impl Print, name: &[u8], answer: Answer, values: &[u64]) -> io::Result<()> {
    head(rt, name, answer.number, answer.place)?;
    rest(rt, values)
}

// A line of a report: its number, a minus sign where the sum is negative, the halves of both sums, and the counts.
pub(crate) fn report_line(
    rt: &impl Print,
    name: &[u8],
    report: Report,
    counts: &[u64],
) -> io::Result<()> {
    let number = report.number;
    rt.write_all(name)?;
    print!(rt; ": {number}")?;
    if report.negative {
        print!(rt; " -")?;
    }
    unsigned(rt, report.sum_high)?;
    unsigned(rt, report.sum_low)?;
    unsigned(rt, report.squares_high)?;
    unsigned(rt, report.squares_low)?;
    rest(rt, counts)
}

// A line of a polynomial: its number and some coefficients.
pub(crate) fn polynomial_line(
    rt: &impl Print,
    name: &[u8],
    number: u32,
    coefficients: &[u64],
) -> io::Result<()> {
    rt.write_all(name)?;
    print!(rt; ": {number}")?;
    rest(rt, coefficients)
}
