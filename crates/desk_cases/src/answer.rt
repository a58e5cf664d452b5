// A request's answer, and what is printed of it.
ghost use Rattle.std.specs.Prelude.{◌≡◌, ◌*◌, ◌<◌, ◌≤◌, length, take};
ghost use Rattle.desk.specs.Desk.{desk_draw};
ghost use Rattle.desk_cases.specs.Hexadecimal.{IsPrefixLen};
ghost use Rattle.desk_cases.specs.Printed.{printed, printed_of};

use crate::hex::write_field;
use desk::desk_draw;
use std::io;

// What is printed of an answer, but for the output's bytes: these stand at the start of a text, up to `end`.
#[derive(Clone, Copy)]
pub(crate) struct Drawn {
    pub number: u32,
    pub place: usize,
    pub skipped_words: u64,
    pub skipped_bytes: u64,
    pub end: usize,
}

// Draws a request, and writes the output's bytes into a text. The sums are no zeros before the call, so that it is seen to write them.
pub(crate) fn draw(
    kind: u32,
    a: u32,
    b: u32,
    modulus: u32,
    place: usize,
    words: &[u8],
    output: &mut [u8],
    text: &mut [u8],
) -> Drawn
    requires { (2 * length output.old ≤ length text.old) × (0 < length text.old) }
    ensures text_after { printed result.number result.place result.skipped_words result.skipped_bytes (take result.end text.new)
        ≡ printed_of (desk_draw kind a b modulus words.now place output.old) }
    ensures prefix_len { IsPrefixLen result.end text.new }
{
    let mut after = place;
    let mut skipped_words = 99;
    let mut skipped_bytes = 99;
    let number = desk_draw(
        kind,
        a,
        b,
        modulus,
        words,
        output,
        &mut after,
        &mut skipped_words,
        &mut skipped_bytes,
    );
    let end = write_field(output, text);
    Drawn {
        number,
        place: after,
        skipped_words,
        skipped_bytes,
        end,
    }
}

// A number in decimal, and a space after it.
fn print_number(rt: &impl Print, value: u64) -> io::Result<()> {
    print!(rt; "{value} ")
}

// Prints an answer, whose output's bytes stand in a field.
pub(crate) fn print(rt: &impl Print, drawn: Drawn, field: &[u8]) -> io::Result<()> {
    print_number(rt, drawn.number as u64)?;
    print_number(rt, drawn.place as u64)?;
    print_number(rt, drawn.skipped_words)?;
    print_number(rt, drawn.skipped_bytes)?;
    rt.write_all(field)?;
    println!(rt)
}
