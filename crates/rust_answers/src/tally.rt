// Counting lines, answers, and answers that agree.
use crate::print::tell;
use std::io;

// The number of lines, of answers among them, and of answers that agree.
#[derive(Clone, Copy)]
pub(crate) struct Tally {
    pub lines: u64,
    pub answers: u64,
    pub agree: u64,
}

// The counts before the first line.
pub(crate) fn empty() -> Tally {
    Tally {
        lines: 0,
        answers: 0,
        agree: 0,
    }
}

// The counts of a file that cannot be read: one answer, which does not agree.
pub(crate) fn unread() -> Tally {
    Tally {
        lines: 0,
        answers: 1,
        agree: 0,
    }
}

// The counts of two files together.
pub(crate) fn joined(one: Tally, other: Tally) -> Tally {
    Tally {
        lines: std::num::wrapping_add_u64(one.lines, other.lines),
        answers: std::num::wrapping_add_u64(one.answers, other.answers),
        agree: std::num::wrapping_add_u64(one.agree, other.agree),
    }
}

// The counts after one answer more. An answer that does not agree is printed with its line number.
pub(crate) fn with_answer(rt: &impl Print, tally: Tally, agrees: bool) -> io::Result<Tally> {
    let one = Tally {
        lines: 1,
        answers: 1,
        agree: agrees as u64,
    };
    let next = joined(tally, one);
    if !agrees {
        tell(rt, next.lines)?;
    }
    Ok(next)
}

// The counts after the line of a table. A line that is no table after all counts as an answer that does not agree.
pub(crate) fn with_table(rt: &impl Print, tally: Tally, is_table: bool) -> io::Result<Tally> {
    if !is_table {
        return with_answer(rt, tally, false);
    }
    let mut next = tally;
    next.lines = std::num::wrapping_add_u64(next.lines, 1);
    Ok(next)
}
