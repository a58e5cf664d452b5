// Asks the calls of `beside` for what the Rust answered, in the files that its arguments name. For each file it prints a line with the
// number of answers and of those that agree, and before it one for each line of the file that does not; at the end the totals.
// Then it does the same with altered.txt, a few of the stored lines with a number, a place, a sum or a coefficient changed or not well
// formed: a comparison that always agrees would show there.
#![tactic(auto)]

mod compare;
mod draw_words;
mod draws;
mod file;
mod line;
mod line_numbers;
mod print;
mod reading;
mod real;
mod room;
mod tally;

use room::text_room;
use std::io;
use std::rt::Files;
use tally::Tally;

// Judges a file. One that cannot be opened, or is too long, is an answer that does not agree.
fn judge_file(rt: &(impl Files + Print + Eprint + Alloc), name: &str) -> io::Result<Tally> {
    let mut bytes = text_room();
    let Some(size) = full_read::read_file(rt, name, &mut bytes)? else {
        return Ok(tally::unread());
    };
    if 131072 < size {
        return Ok(tally::unread());
    }
    file::judge_text(rt, &bytes[0..size])
}

// Judges a file, and prints its totals.
fn judge(rt: &(impl Files + Print + Eprint + Alloc), name: &str) -> io::Result<Tally> {
    let tally = judge_file(rt, name)?;
    print::summary(rt, name, tally)?;
    Ok(tally)
}

fn main(rt: HostRuntime) -> io::Result<()> {
    let mut total = tally::empty();
    for name in std::env::args(&rt)?.skip(1) {
        total = tally::joined(total, judge(&rt, full_read::path_of(name.as_str()))?);
    }
    print::summary(&rt, "total", total)?;
    judge(&rt, "altered.txt")?;
    Ok(())
}
