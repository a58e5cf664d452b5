// A line: five numbers in decimal and two fields of bytes, one space between.
ghost use Rattle.std.specs.Prelude.{◌≡◌, ◌≤◌, length};

use crate::answer::{draw, print};
use crate::find::find;
use crate::hex::read_field;
use crate::number::{MOST_64, read_number};
use std::io;

// The largest number of 32 bits.
const MOST_32: u64 = 0xffff_ffff;

// The most bytes that a line may give as words, and as output.
fn bytes_room() -> [u8; 33000]
    ensures { 33000 ≡ length result }
{
    [0; 33000]
}

// Room for the digits of as many.
fn text_room() -> [u8; 66000]
    ensures { 66000 ≡ length result }
{
    [0; 66000]
}

// A number of a line: its value, and where the next field begins.
#[derive(Clone, Copy)]
struct Item {
    good: bool,
    value: u64,
    next: usize,
}

// The number that begins at a place of a line. A space must follow it.
fn number_at(line: &[u8], at: usize, most: u64) -> Item
    requires { at ≤ length line.now }
    ensures value_le_most { result.value ≤ most }
    ensures next_in_bounds { result.next ≤ length line.now }
{
    let size = line.len();
    let end = find(line, at, b' ');
    let number = read_number(&line[at..end], most);
    if end == size {
        return Item {
            good: false,
            value: 0,
            next: size,
        };
    }
    Item {
        good: number.good,
        value: number.value,
        next: end + 1,
    }
}

// The numbers of a line, and where the field of its words begins.
#[derive(Clone, Copy)]
struct Numbers {
    good: bool,
    kind: u32,
    a: u32,
    b: u32,
    modulus: u32,
    place: usize,
    next: usize,
}

// Reads the five numbers.
fn read_numbers(line: &[u8]) -> Numbers
    ensures { result.next ≤ length line.now }
{
    let kind = number_at(line, 0, MOST_32);
    let a = number_at(line, kind.next, MOST_32);
    let b = number_at(line, a.next, MOST_32);
    let modulus = number_at(line, b.next, MOST_32);
    let place = number_at(line, modulus.next, MOST_64);
    Numbers {
        good: kind.good & a.good & b.good & modulus.good & place.good,
        kind: kind.value as u32,
        a: a.value as u32,
        b: b.value as u32,
        modulus: modulus.value as u32,
        place: place.value as usize,
        next: place.next,
    }
}

// Says that a line has another form.
fn bad_line(rt: &impl Print) -> io::Result<()> {
    println!(rt; "bad line")
}

// Answers a request: its numbers, its words, and the output as it is before the call.
fn answer(rt: &impl Print, numbers: Numbers, words: &[u8], output: &mut [u8]) -> io::Result<()>
    requires { length output.old ≤ 33000 }
{
    let mut text = text_room();
    let drawn = draw(
        numbers.kind,
        numbers.a,
        numbers.b,
        numbers.modulus,
        numbers.place,
        words,
        output,
        &mut text,
    );
    let end = drawn.end;
    print(rt, drawn, &text[..end])
}

// Answers the request of two fields that follow the numbers.
fn answer_fields(rt: &impl Print, numbers: Numbers, words: &[u8], output: &[u8]) -> io::Result<()> {
    let mut words_room = bytes_room();
    let mut output_room = bytes_room();
    let words_read = read_field(words, &mut words_room);
    let output_read = read_field(output, &mut output_room);
    let word_bytes = words_read.count;
    let output_bytes = output_read.count;
    if !(numbers.good & words_read.good & output_read.good) {
        return bad_line(rt);
    }
    answer(
        rt,
        numbers,
        &words_room[..word_bytes],
        &mut output_room[..output_bytes],
    )
}

// Answers a line: after the numbers stand the words up to a space, and then the output.
pub(crate) fn answer_line(rt: &impl Print, line: &[u8]) -> io::Result<()> {
    let size = line.len();
    let numbers = read_numbers(line);
    let at = numbers.next;
    let end = find(line, at, b' ');
    if end == size {
        return bad_line(rt);
    }
    let next = end + 1;
    answer_fields(rt, numbers, &line[at..end], &line[next..])
}
