// Replays what the plain C version of beside_c/ answered, in the files that its arguments name, through `sample_poly_cbd`. For each file it prints a line
// with the number of answers and of those that agree, and before it one for each line of the file that does not; at the end the totals. Then it
// does the same with altered.txt, a few of the stored lines with one thing changed: a comparison that always agrees would show there.
#![tactic(auto)]

mod compare;
mod file;
mod reading;
mod request;
mod tally;

ghost use Rattle.std.specs.Prelude.{◌≡◌, length};

use std::io;
use std::rt::Files;
use tally::{Tally, summary};

// For a file of 131,072 bytes. What follows them is not read.
fn text_room() -> [u8; 131072]
    ensures { 131072 ≡ length result }
{
    [0; 131072]
}

// Judges a file, and prints its totals. One that cannot be opened has no answers.
fn judge(rt: &(impl Files + Print + Eprint + Alloc), name: &str) -> io::Result<Tally> {
    let mut text = text_room();
    let Some(size) = full_read::read_file(rt, name, &mut text)? else {
        return Ok(tally::none());
    };
    let tally = file::judge_text(rt, &text[..size])?;
    summary(rt, name, tally)?;
    Ok(tally)
}

fn main(rt: HostRuntime) -> io::Result<()> {
    let mut total = tally::none();
    for name in std::env::args(&rt)?.skip(1) {
        total = tally::joined(total, judge(&rt, full_read::path_of(name.as_str()))?);
    }
    summary(&rt, "total", total)?;
    judge(&rt, "altered.txt")?;
    Ok(())
}
