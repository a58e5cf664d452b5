// Judges and draws by changed layer tables, through `primus_distr` alone: for each file that its arguments name a line with its name, and then for each case of
// the file a line with the verdict on the tables and the answers of six draws by them. README.md has the format.
#![tactic(auto)]

mod case;
mod error_draws;
mod figures;
mod key_draws;
mod print;
mod room;

use crate::case::answer_case;
use full_read::read_file;
use residue_text::number::ALL;
use residue_text::numbers::read_numbers;
use std::rt::Files;
use std::{env, io};

// Reads the numbers of a line into the room for figures, from a place on.
fn put_line(rt: &impl Print, line: &[u8], from: usize, figures: &mut [u64]) -> io::Result<()> {
    if figures.len() < from {
        return Ok(());
    }
    let read = read_numbers(line, ALL, &mut figures[from..]);
    if read.more {
        return print::bad_line(rt);
    }
    Ok(())
}

// Takes a line: the first four are the parameters and the lists, and each other is a case, over a copy of them.
fn take_line(
    rt: &impl Print,
    number: usize,
    line: &[u8],
    figures: &mut [u64; 8192],
) -> io::Result<()> {
    match number {
        0 => put_line(rt, line, figures::PARAMETERS, figures),
        1 => put_line(rt, line, figures::ENDPOINTS, figures),
        2 => put_line(rt, line, figures::HEIGHTS, figures),
        3 => put_line(rt, line, figures::CURVE, figures),
        _ => answer_case(rt, line, *figures),
    }
}

// Takes the lines of a text, one after the other. A newline ends a line, and the text's end the last one.
fn answer_text(rt: &impl Print, text: &[u8]) -> io::Result<()> {
    let mut figures = [0u64; 8192];
    let mut number = 0;
    for ended in text.split_inclusive(|byte| *byte == b'\n') {
        let line = ended.strip_suffix(b"\n").unwrap_or(ended);
        take_line(rt, number, line, &mut figures)?;
        number = number.wrapping_add(1);
    }
    Ok(())
}

// Answers the file that an argument names, after a line with its name.
fn answer_argument<R: Print + Eprint + Files + Alloc>(rt: &R, path: &str) -> io::Result<()> {
    println!(rt; "== {path}")?;
    let mut text = room::text_room();
    match read_file(rt, path, &mut text)? {
        Some(size) => answer_text(rt, &text[..size]),
        None => Ok(()),
    }
}

fn main(rt: HostRuntime) -> io::Result<()> {
    for argument in env::args(&rt)?.skip(1) {
        answer_argument(&rt, full_read::path_of(argument.as_str()))?;
    }
    Ok(())
}
