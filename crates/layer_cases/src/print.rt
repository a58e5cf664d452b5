// What the program prints.
use primus_distr::{Answer, LayerFault};
use std::io;

// A number in decimal, and a space after it.
pub(crate) fn number(rt: &impl Print, value: u64) -> io::Result<()> {
    print!(rt; "{value} ")
}

// Says that a line has another form.
pub(crate) fn bad_line(rt: &impl Print) -> io::Result<()> {
    print!(rt; "bad line\n")
}

// The verdict on layer tables: the number and the index, both 0 for good ones.
pub(crate) fn verdict(rt: &impl Print, checked: Result<(), LayerFault>) -> io::Result<()> {
    match checked {
        Ok(()) => print!(rt; "0 0 "),
        Err(fault) => {
            number(rt, fault.refusal.number() as u64)?;
            number(rt, fault.index as u64)
        }
    }
}

// A draw's answer: number, index, place and both sums; and whether its output is empty, holds what it held before, or only zeros.
fn answer(rt: &impl Print, answer: Answer, size: usize, same: bool, zeros: bool) -> io::Result<()> {
    print!(rt; "| ")?;
    number(rt, answer.number as u64)?;
    number(rt, answer.index as u64)?;
    number(rt, answer.place as u64)?;
    number(rt, answer.skipped_words)?;
    number(rt, answer.skipped_bytes)?;
    if size == 0 {
        print!(rt; "empty ")
    } else if same {
        print!(rt; "same ")
    } else if zeros {
        print!(rt; "zeros ")
    } else {
        print!(rt; "other ")
    }
}

// The answer of a draw of residues.
pub(crate) fn residues(rt: &impl Print, drawn: Answer, output: &[u64]) -> io::Result<()> {
    let mut same = true;
    let mut zeros = true;
    for residue in output {
        same = same & (*residue == 9);
        zeros = zeros & (*residue == 0);
    }
    answer(rt, drawn, output.len(), same, zeros)
}

// The answer of a draw of signed coefficients.
pub(crate) fn coefficients(rt: &impl Print, drawn: Answer, output: &[i64]) -> io::Result<()> {
    let mut same = true;
    let mut zeros = true;
    for coefficient in output {
        same = same & (*coefficient == 9);
        zeros = zeros & (*coefficient == 0);
    }
    answer(rt, drawn, output.len(), same, zeros)
}
