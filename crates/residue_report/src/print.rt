// What the program prints.
use decimal::write_halves;
use residue_text::Input;
use stats::Report;
use std::io;

// A number of two halves in decimal, and the end of the line.
fn halves_line(rt: &impl Print, high: u64, low: u64) -> io::Result<()> {
    let mut digits = [0u8; 39];
    let count = write_halves(high, low, &mut digits);
    rt.write_all(&digits[..count])?;
    rt.write_all(b"\n")
}

// The two sums, a line each.
pub(crate) fn report(rt: &impl Print, report: Report) -> io::Result<()> {
    print!(rt; "sum ")?;
    if report.negative {
        print!(rt; "-")?;
    }
    halves_line(rt, report.sum_high, report.sum_low)?;
    print!(rt; "sum of squares ")?;
    halves_line(rt, report.squares_high, report.squares_low)
}

// A limit and its count.
fn count_line(rt: &impl Print, limit: u64, count: u64) -> io::Result<()> {
    println!(rt; "at most {limit}: {count}")
}

// The counts, a line each. There are as many as limits.
pub(crate) fn counts(rt: &impl Print, limits: &[u64], counts: &[u64]) -> io::Result<()> {
    for (limit, count) in limits.iter().zip(counts) {
        count_line(rt, *limit, *count)?;
    }
    Ok(())
}

// Which number of the text is bad, and what should stand there.
pub(crate) fn bad(rt: &impl Print, input: Input) -> io::Result<()> {
    let position = input.position;
    print!(rt; "number {position} of the input is bad: ")?;
    let wanted = match input.bad_part {
        1 => "the first line is the modulus alone, a whole number from 1 to 9007199254740992",
        2 => "the second line is up to 4096 limits, whole numbers up to 18446744073709551615",
        _ => "after the second line come up to 65536 residues, whole numbers below the modulus",
    };
    println!(rt; "{wanted}")
}
