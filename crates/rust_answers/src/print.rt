// What the program prints.
use crate::tally::Tally;
use std::io;

// Prints the number of a line that is not well formed, or whose answer is not the stored one.
pub(crate) fn tell(rt: &impl Print, line: u64) -> io::Result<()> {
    println!(rt; "line {line} does not agree")
}

// Prints how many answers a file has, and how many agree.
pub(crate) fn summary(rt: &impl Print, name: &str, tally: Tally) -> io::Result<()> {
    let answers = tally.answers;
    let agree = tally.agree;
    println!(rt; "{name}: {answers} answers, {agree} agree")
}
