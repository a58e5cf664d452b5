// Reading the text line by line: the support on the first line, then a line for each list, and nothing after them. README.md states the format.
ghost use Rattle.std.specs.Prelude.{◌≤◌, length};

use crate::reals::read_reals;
use residue_text::number::ALL;
use residue_text::numbers::{Numbers, read_numbers};

// The first bad number of a text: its line, 5 for all that follow the fourth and 0 for none, and which number of the text it is, counted from 1.
#[derive(Clone, Copy)]
pub(crate) struct Bad {
    pub line: usize,
    pub position: usize,
}

// Where a line ends, and where the text after it begins.
#[derive(Clone, Copy)]
struct Span {
    end: usize,
    next: usize,
}

// The line of a number from 1 to 5 that begins at a place: up to its newline or the text's end; of the number 5, all that is left.
fn span_at(text: &[u8], at: usize, number: usize) -> Span
    requires { at ≤ length text.now }
    ensures at_le_end { at ≤ result.end }
    ensures end_in_bounds { result.end ≤ length text.now }
    ensures next_in_bounds { result.next ≤ length text.now }
{
    let size = text.len();
    if number == 5 {
        return Span {
            end: size,
            next: size,
        };
    }
    match text[at..].iter().position(|byte| *byte == b'\n') {
        Some(k) => Span {
            end: at + k,
            next: at + k + 1,
        },
        None => Span {
            end: size,
            next: size,
        },
    }
}

// Reads the numbers of a line into the room that it has.
fn read_line(
    number: usize,
    line: &[u8],
    support: &mut [u64; 1],
    endpoints: &mut [u64; 1024],
    heights: &mut [f64; 1024],
    curve: &mut [f64; 32768],
) -> Numbers {
    match number {
        1 => read_numbers(line, ALL, support),
        2 => read_numbers(line, ALL, endpoints),
        3 => read_reals(line, heights),
        4 => read_reals(line, curve),
        _ => read_reals(line, &mut [0.0; 0]),
    }
}

// Reads a whole text, and counts the numbers of each line. A first line without a number is bad: number 1 of the text is not the support.
pub(crate) fn read_text(
    text: &[u8],
    counts: &mut [usize; 6],
    support: &mut [u64; 1],
    endpoints: &mut [u64; 1024],
    heights: &mut [f64; 1024],
    curve: &mut [f64; 32768],
) -> Bad {
    let mut position: usize = 1;
    let mut at: usize = 0;
    for line in 1..6 {
        let span = span_at(text, at, line);
        let end = span.end;
        let read = read_line(line, &text[at..end], support, endpoints, heights, curve);
        position = position.wrapping_add(read.count);
        if read.more | ((line == 1) & (read.count == 0)) {
            return Bad { line, position };
        }
        counts[line] = read.count;
        at = span.next;
    }
    Bad {
        line: 0,
        position: 0,
    }
}
