// A file of answers, byte by byte.
use crate::reading::{Line, NUMBERS, end_number, unread, with_byte};
use crate::request::is_answered;
use crate::tally::{Tally, none, with_line};
use std::io;

// What is counted so far, and the line that is being read.
#[derive(Clone, Copy)]
struct State {
    tally: Tally,
    line: Line,
}

// Whether a line that has ended is well formed and its answer agrees.
fn is_right(line: Line, numbers: &[u64; NUMBERS]) -> bool {
    let count = line.count;
    if !line.good {
        return false;
    }
    if NUMBERS < count {
        return false;
    }
    let all = &numbers[..];
    is_answered(&all[0..count])
}

// The state after a byte more. A newline ends a line, and a space a number.
fn step(
    rt: &impl Print,
    state: State,
    byte: u8,
    numbers: &mut [u64; NUMBERS],
) -> io::Result<State> {
    let tally = state.tally;
    let line = state.line;
    if byte == b'\n' {
        let whole = end_number(line, numbers);
        return Ok(State {
            tally: with_line(rt, tally, is_right(whole, numbers))?,
            line: unread(),
        });
    }
    if byte == b' ' {
        return Ok(State {
            tally,
            line: end_number(line, numbers),
        });
    }
    Ok(State {
        tally,
        line: with_byte(line, byte),
    })
}

// Judges all lines of a text. What follows the last newline is an answer that does not agree.
pub(crate) fn judge_text(rt: &impl Print, text: &[u8]) -> io::Result<Tally> {
    let mut numbers = [0; NUMBERS];
    let mut state = State {
        tally: none(),
        line: unread(),
    };
    let mut ended = true;
    for byte in text {
        state = step(rt, state, *byte, &mut numbers)?;
        ended = *byte == b'\n';
    }
    let tally = state.tally;
    if ended {
        return Ok(tally);
    }
    with_line(rt, tally, false)
}
