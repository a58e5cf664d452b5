// Replays requests to the desk's entry: for each file that its arguments name a line with its name, and then for each line of the file the answer of
// `desk_draw`, or `bad line`. README.md has the format.
#![tactic(auto)]

mod answer;
mod find;
mod hex;
mod line;
mod number;

ghost use Rattle.std.specs.Prelude.{◌≡◌, length};

use crate::find::find;
use crate::line::answer_line;
use std::io;
use std::rt::Files;

// Room for a file of 150,000 bytes. What follows them is not read.
fn file_room() -> [u8; 150000]
    ensures { 150000 ≡ length result }
{
    [0; 150000]
}

// Answers the lines of a text, one after the other. A newline ends a line, and the text's end the last one.
fn answer_text(rt: &impl Print, text: &[u8]) -> io::Result<()> {
    let size = text.len();
    let mut at = 0;
    while at < size {
        let end = find(text, at, b'\n');
        answer_line(rt, &text[at..end])?;
        if end == size {
            break;
        }
        at = end + 1;
    }
    Ok(())
}

// The name of a file, and the answers to its lines.
fn answer_file(rt: &(impl Files + Print + Eprint + Alloc), path: &str) -> io::Result<()> {
    println!(rt; "== {path}")?;
    let mut text = file_room();
    let Some(size) = full_read::read_file(rt, path, &mut text)? else {
        return Ok(());
    };
    answer_text(rt, &text[..size])
}

fn main(rt: HostRuntime) -> io::Result<()> {
    for path in std::env::args(&rt)?.skip(1) {
        answer_file(&rt, full_read::path_of(path.as_str()))?;
    }
    Ok(())
}
