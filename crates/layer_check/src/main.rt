// Judges layer tables that are typed from a dump (02 [6]): on standard input, or in the files that the arguments name, where `-` is standard input and a line
// with the name stands before each answer. It prints the number, the index, and which entry of which list they name. README.md has the format.
#![tactic(auto)]

mod print;
mod reading;
mod reals;
mod room;

use full_read::{read_file, read_full};
use layer_tables::check_layer_tables;
use std::rt::Runtime;
use std::{env, io};

// Longest text in bytes.
const MAX_TEXT: usize = 1048576;

// Prints the verdict on the lists of a good text, which stand at the start of their rooms. No list is longer than its room, so that each is judged.
fn judge(
    rt: &impl Print,
    counts: &[usize; 6],
    support: &[u64; 1],
    endpoints: &[u64; 1024],
    heights: &[f64; 1024],
    curve: &[f64; 32768],
) -> io::Result<()> {
    let support = support[0];
    let endpoints = &endpoints[..];
    let heights = &heights[..];
    let curve = &curve[..];
    let e = counts[2];
    let h = counts[3];
    let c = counts[4];
    if endpoints.len() < e {
        return Ok(());
    }
    if heights.len() < h {
        return Ok(());
    }
    if curve.len() < c {
        return Ok(());
    }
    let checked = check_layer_tables(support, &endpoints[0..e], &heights[0..h], &curve[0..c]);
    print::verdict(rt, checked, counts, support)
}

// Reads a text and prints the verdict on its tables, or which number of it is bad.
fn answer(rt: &impl Print, text: &[u8]) -> io::Result<()> {
    let mut counts = [0usize; 6];
    let mut support = [0u64; 1];
    let mut endpoints = [0u64; 1024];
    let mut heights = [0.0f64; 1024];
    let mut curve = [0.0f64; 32768];
    let bad = reading::read_text(
        text,
        &mut counts,
        &mut support,
        &mut endpoints,
        &mut heights,
        &mut curve,
    );
    if bad.line != 0 {
        return print::bad(rt, bad.line, bad.position);
    }
    judge(rt, &counts, &support, &endpoints, &heights, &curve)
}

// Answers a text that was read. One byte more than a text may have is asked for, so that a longer one is noticed.
fn answer_read(rt: &impl Print, text: &[u8]) -> io::Result<()> {
    if MAX_TEXT < text.len() {
        return println!(rt; "the input is longer than 1048576 bytes");
    }
    answer(rt, text)
}

// Answers the text on standard input.
fn answer_input(rt: &(impl Input + Print)) -> io::Result<()> {
    let mut bytes = room::text_room();
    let size = read_full(&mut rt.reader(), &mut bytes)?;
    answer_read(rt, &bytes[..size])
}

// Answers the text of a file, where it can be opened.
fn answer_file(rt: &impl Runtime, path: &str) -> io::Result<()> {
    let mut bytes = room::text_room();
    let Some(size) = read_file(rt, path, &mut bytes)? else {
        return Ok(());
    };
    answer_read(rt, &bytes[..size])
}

// Answers the file that an argument names, after a line with its name.
fn answer_argument(rt: &impl Runtime, path: &str) -> io::Result<()> {
    println!(rt; "== {path}")?;
    if path == "-" {
        answer_input(rt)
    } else {
        answer_file(rt, path)
    }
}

fn main(rt: HostRuntime) -> io::Result<()> {
    let paths = env::args(&rt)?.skip(1);
    if paths.len() == 0 {
        return answer_input(&rt);
    }
    for path in paths {
        answer_argument(&rt, full_read::path_of(path.as_str()))?;
    }
    Ok(())
}
