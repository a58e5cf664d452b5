// A file of answers, byte by byte.
use crate::draws::is_answered;
use crate::line::is_table;
use crate::line_numbers::{ANSWER, LAST, kept, put};
use crate::reading::{Line, count_of, end_number, is_unread, unread, with_byte};
use crate::room::numbers_room;
use crate::tally::{Tally, empty, with_answer, with_table};
use std::io;

// What is counted so far, and the line that is being read.
#[derive(Clone, Copy)]
struct State {
    tally: Tally,
    line: Line,
}

// Judges a line that has ended. One that is not well formed is kept without numbers, and so is no answer and no table.
fn judge_line(rt: &impl Print, tally: Tally, line: Line, room: &mut [u64]) -> io::Result<Tally> {
    let begin = line.begin;
    put(room, begin, LAST, count_of(line));
    if begin == ANSWER {
        return with_answer(rt, tally, is_answered(room));
    }
    with_table(rt, tally, is_table(kept(room, begin)))
}

// The state after a byte more. A newline ends a line, and a space a number.
fn step(rt: &impl Print, state: State, byte: u8, room: &mut [u64]) -> io::Result<State> {
    let tally = state.tally;
    let line = state.line;
    if byte == b'\n' {
        let whole = end_number(line, room);
        return Ok(State {
            tally: judge_line(rt, tally, whole, room)?,
            line: unread(),
        });
    }
    if byte == b' ' {
        return Ok(State {
            tally,
            line: end_number(line, room),
        });
    }
    Ok(State {
        tally,
        line: with_byte(line, byte),
    })
}

// Judges all lines of a text. What follows the last newline is an answer that does not agree.
fn read_text(rt: &impl Print, text: &[u8], room: &mut [u64]) -> io::Result<Tally> {
    let mut state = State {
        tally: empty(),
        line: unread(),
    };
    for byte in text {
        state = step(rt, state, *byte, room)?;
    }
    let tally = state.tally;
    if is_unread(state.line) {
        return Ok(tally);
    }
    with_answer(rt, tally, false)
}

// Judges a file's text, with tables of its own.
pub(crate) fn judge_text(rt: &impl Print, text: &[u8]) -> io::Result<Tally> {
    let mut room = numbers_room();
    read_text(rt, text, &mut room)
}
