// Reading up to the length of a buffer: from a reader, or from the file of a name.
#![tactic(auto)]

ghost use Rattle.std.specs.Prelude.{◌≡◌, ◌<◌, ◌≤◌, [], cond, length, nat_lt, take, IfOk, IfSome};
ghost use Rattle.std.specs.Io.KnownBytes.{Consumes, IsAtEnd};

use std::io::Read;
use std::rt::Files;
use std::{fs, io};

// Reads until buf is full or the input ends, and hands back how many bytes it put at the start of buf. A read that fails is the error. The loop is a
// `while`: its place moves by what each read gives.
pub fn read_full<R: Read>(reader: &mut R, buf: &mut [u8]) -> io::Result<usize>
    ensures in_bounds { IfOk result (λ n. n ≤ length buf.new) }
    ensures keeps_length { length buf.new ≡ length buf.old }
    ensures bytes { IfOk result (λ n. Consumes (R.remaining reader.old) (R.remaining reader.new) (take n buf.new)) }
    ensures end { IfOk result (λ n. n < length buf.new → IsAtEnd (R.remaining reader.new)) }
{
    let mut done = 0;
    while done < buf.len() {
        let count = reader.read(&mut buf[done..])?;
        if count == 0 {
            return Ok(done);
        }
        done += count;
    }
    Ok(done)
}

// The words of an error's text, without the number that may follow them.
fn words_of(text: &str) -> &str {
    match text.split_once(" (os error ") {
        Some((words, _)) => words,
        None => text,
    }
}

// Says on standard error that the file of a name cannot be opened, and why, in the system's words.
fn say_unopened<R: Eprint + Alloc>(rt: &R, name: &str, error: io::Error) -> io::Result<()> {
    let text = format!(in rt.alloc(); "{error}")?;
    let words = words_of(text.as_str());
    eprintln!(rt; "{name}: {words}")
}

// Reads the file of a name up to the length of buf, and hands back how many bytes it put at the start of buf. Where the file cannot be opened, it says
// so on standard error and hands back none. A read that fails is the error.
pub fn read_file<R: Files + Eprint + Alloc>(
    rt: &R,
    name: &str,
    buf: &mut [u8],
) -> io::Result<Option<usize>>
    ensures in_bounds { IfOk result (λ read. IfSome read (λ n. n ≤ length buf.new)) }
    ensures keeps_length { length buf.new ≡ length buf.old }
{
    match fs::open(rt, name) {
        Ok(mut file) => Ok(Some(read_full(&mut file, buf)?)),
        Err(error) => {
            say_unopened(rt, name, error)?;
            Ok(None)
        }
    }
}

// The path that an argument names: no path has more than 4,096 bytes, and an argument that has names none.
pub fn path_of(argument: &str) -> &str
    ensures { result.now ≡ cond (nat_lt 4096 (length argument.now)) [] argument.now }
{
    if 4096 < argument.len() { "" } else { argument }
}
