// Draws uniform ternary from many lists of words, by the table of trits and by division, and compares the two. A line is for a list and a place where
// each draw begins; what it must print stands in the file `stdout`, written by a model that takes one digit after the other.
#![tactic(auto)]

mod compare;
mod draws;
mod print;
mod tally;
mod word_lists;

use std::io;

// All draws from a list at a place, of 48 lengths, and their line.
fn list_at(rt: &impl Print, kind: u32, list: &[u32], place: usize) -> io::Result<()> {
    let mut tally = tally::none();
    for i in 0..48 {
        tally = draws::of_length(tally, draws::length_at(i), list, place);
    }
    print::line(rt, kind, list.len(), place, tally)
}

// The list of the first words of a kind, at its places: its first two words, its end, and one past that, each once.
fn list_at_places(rt: &impl Print, kind: u32, words: &[u32], count: usize) -> io::Result<()> {
    if words.len() < count {
        return Ok(());
    }
    let list = &words[0..count];
    list_at(rt, kind, list, 0)?;
    list_at(rt, kind, list, 1)?;
    if 1 < count {
        list_at(rt, kind, list, count)?;
    }
    if 0 < count {
        list_at(rt, kind, list, count + 1)?;
    }
    Ok(())
}

// The lists of a kind: none, some and all of its words.
fn lists(rt: &impl Print, kind: u32, words: &[u32]) -> io::Result<()> {
    list_at_places(rt, kind, words, 0)?;
    list_at_places(rt, kind, words, 1)?;
    list_at_places(rt, kind, words, 2)?;
    list_at_places(rt, kind, words, 5)?;
    list_at_places(rt, kind, words, 13)?;
    list_at_places(rt, kind, words, 96)
}

// Each kind of list.
fn main(rt: HostRuntime) -> io::Result<()> {
    lists(&rt, 0, &word_lists::of_kind(0))?;
    lists(&rt, 1, &word_lists::of_kind(1))?;
    lists(&rt, 2, &word_lists::of_kind(2))?;
    lists(&rt, 3, &word_lists::of_kind(3))
}
