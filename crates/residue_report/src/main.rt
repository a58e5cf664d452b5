// The report of 02 [2] over a modulus, limits and residues in decimal text: on standard input, or in the files that the arguments name, where `-` is
// standard input and a line with the name stands before each answer. The report never refuses a good text (proofs/Accepting).
#![tactic(auto)]

mod print;
mod room;

use full_read::{read_file, read_full};
use residue_text::read_input;
use stats::{Report, residue_report};
use std::rt::Runtime;
use std::{env, io};

// Longest text in bytes.
const MAX_TEXT: usize = 2097152;

// Prints a report with the counts for its limits.
fn report_on(rt: &impl Print, report: Report, limits: &[u64], counts: &[u64]) -> io::Result<()> {
    print::report(rt, report)?;
    print::counts(rt, limits, counts)
}

// Reads a text and prints its report, or which number of it is bad. The report over a good text is never refused (proofs/Accepting).
fn answer(rt: &impl Print, text: &[u8]) -> io::Result<()> {
    let mut limits = room::limits_room();
    let mut residues = room::residues_room();
    let input = read_input(text, &mut limits, &mut residues);
    if input.bad_part != 0 {
        return print::bad(rt, input);
    }
    let limit_count = input.limit_count;
    let residue_count = input.residue_count;
    let mut counts = room::limits_room();
    let report = residue_report(
        &residues[..residue_count],
        input.modulus,
        &limits[..limit_count],
        &mut counts[..limit_count],
    );
    prove!(report.number == 0);
    report_on(rt, report, &limits[..limit_count], &counts[..limit_count])
}

// Answers a text that was read. One byte more than a text may have is asked for, so that a longer one is noticed.
fn answer_read(rt: &impl Print, text: &[u8]) -> io::Result<()> {
    if MAX_TEXT < text.len() {
        return println!(rt; "the input is longer than 2097152 bytes");
    }
    answer(rt, text)
}

// Answers the text on standard input.
fn answer_input(rt: &(impl Input + Print)) -> io::Result<()> {
    let mut bytes = room::text_room();
    let size = read_full(&mut rt.reader(), &mut bytes)?;
    answer_read(rt, &bytes[..size])
}

// Answers the text of a file, where it can be opened.
fn answer_file(rt: &impl Runtime, path: &str) -> io::Result<()> {
    let mut bytes = room::text_room();
    let Some(size) = read_file(rt, path, &mut bytes)? else {
        return Ok(());
    };
    answer_read(rt, &bytes[..size])
}

// The name of a file, and its answer.
fn answer_named(rt: &impl Runtime, path: &str) -> io::Result<()> {
    println!(rt; "== {path}")?;
    if path == "-" {
        answer_input(rt)
    } else {
        answer_file(rt, path)
    }
}

fn main(rt: HostRuntime) -> io::Result<()> {
    let paths = env::args(&rt)?.skip(1);
    if paths.len() == 0 {
        return answer_input(&rt);
    }
    for path in paths {
        answer_named(&rt, full_read::path_of(path.as_str()))?;
    }
    Ok(())
}
