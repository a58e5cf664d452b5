// Answers the sheet on standard input, with a third line where the argument `skipped` asks for it. One byte more than a sheet may have is asked
// for, so that a longer input is refused.
#![tactic(auto)]

ghost use Rattle.std.specs.Prelude.{◌≡◌, length};

use full_read::read_full;
use sheet::argument;
use std::{env, io};

// Room for a sheet and one byte more. The `ensures` gives the length, which lending the array needs.
fn sheet_room() -> [u8; 65537]
    ensures { 65537 ≡ length result }
{
    [0; 65537]
}

// Room for any answer.
fn text_room() -> [u8; 98304]
    ensures { 98304 ≡ length result }
{
    [0; 98304]
}

// Reads a sheet and prints its answer, with the words and the bytes skipped on a third line where they are asked for.
fn answer(rt: &(impl Input + Print), skipped: bool) -> io::Result<()> {
    let mut bytes = sheet_room();
    let size = read_full(&mut rt.reader(), &mut bytes)?;
    let mut text = text_room();
    let length = if skipped {
        sheet::answer_sheet_with_skipped(&bytes[..size], &mut text)
    } else {
        sheet::answer_sheet(&bytes[..size], &mut text)
    };
    rt.write_all(&text[..length])
}

fn main(rt: HostRuntime) -> io::Result<()> {
    let mut words = env::args(&rt)?.skip(1);
    let Some(word) = words.next() else {
        return answer(&rt, false);
    };
    if words.next().is_none() && argument::is_skipped(word.as_bytes()) {
        answer(&rt, true)
    } else {
        eprintln!(rt; "usage: keysheet [skipped] < SHEET")
    }
}
