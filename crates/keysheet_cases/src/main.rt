// Answers the sheets in the files that its arguments name: for each a line with its name, and then the answer, with the third line for those
// named after the argument `skipped`.
#![tactic(auto)]

ghost use Rattle.std.specs.Prelude.{◌≡◌, length};

use full_read::read_file;
use sheet::argument;
use std::rt::Runtime;
use std::{env, io};

// Room for a sheet and one byte more. The `ensures` gives the length, which lending the array needs.
fn sheet_room() -> [u8; 65537]
    ensures { 65537 ≡ length result }
{
    [0; 65537]
}

// Room for any answer.
fn text_room() -> [u8; 98304]
    ensures { 98304 ≡ length result }
{
    [0; 98304]
}

// The name of a case, and the answer to its sheet, with the third line where it is asked for.
fn print_case(rt: &impl Runtime, path: &str, skipped: bool) -> io::Result<()> {
    println!(rt; "== {path}")?;
    let mut bytes = sheet_room();
    let Some(size) = read_file(rt, path, &mut bytes)? else {
        return Ok(());
    };
    let mut text = text_room();
    let length = if skipped {
        sheet::answer_sheet_with_skipped(&bytes[..size], &mut text)
    } else {
        sheet::answer_sheet(&bytes[..size], &mut text)
    };
    rt.write_all(&text[..length])
}

// What an argument asks: the word `skipped` for the third line from here on, another for the case that it names. Whether the third line is asked
// for after it is handed back.
fn take_argument(rt: &impl Runtime, word: &str, skipped: bool) -> io::Result<bool> {
    if argument::is_skipped(word.as_bytes()) {
        return Ok(true);
    }
    print_case(rt, full_read::path_of(word), skipped)?;
    Ok(skipped)
}

fn main(rt: HostRuntime) -> io::Result<()> {
    let mut skipped = false;
    for word in env::args(&rt)?.skip(1) {
        skipped = take_argument(&rt, word.as_str(), skipped)?;
    }
    Ok(())
}
