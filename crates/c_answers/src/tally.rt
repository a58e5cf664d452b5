// Counting answers and those that agree, and what is printed of them.
use std::io;

// The number of answers, and of those that agree. Each line is an answer, so the first is also the number of the last line.
#[derive(Clone, Copy)]
pub(crate) struct Tally {
    pub answers: u64,
    pub agree: u64,
}

pub(crate) fn none() -> Tally {
    Tally {
        answers: 0,
        agree: 0,
    }
}

// The counts of two together.
pub(crate) fn joined(one: Tally, other: Tally) -> Tally {
    Tally {
        answers: std::num::wrapping_add_u64(one.answers, other.answers),
        agree: std::num::wrapping_add_u64(one.agree, other.agree),
    }
}

// The counts after one line more. One that does not agree is printed by its number.
pub(crate) fn with_line(rt: &impl Print, tally: Tally, agrees: bool) -> io::Result<Tally> {
    let one = Tally {
        answers: 1,
        agree: agrees as u64,
    };
    let next = joined(tally, one);
    if !agrees {
        let line = next.answers;
        println!(rt; "line {line} does not agree")?;
    }
    Ok(next)
}

// Prints how many answers a file has, and how many agree.
pub(crate) fn summary(rt: &impl Print, name: &str, tally: Tally) -> io::Result<()> {
    let answers = tally.answers;
    let agree = tally.agree;
    println!(rt; "{name}: {answers} answers, {agree} agree")
}
