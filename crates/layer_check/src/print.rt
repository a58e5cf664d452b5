// What the program prints.
use distr::refusal::Refusal;
use layer_tables::LayerFault;
use std::io;

// The lengths of the lists beside those that fit.
fn lengths(rt: &impl Print, counts: &[usize; 6], support: u64) -> io::Result<()> {
    let endpoints = counts[2];
    let heights = counts[3];
    let curve = counts[4];
    print!(rt;
        "the lengths do not fit: {endpoints} endpoints, {heights} heights and {curve} curve values, "
    )?;
    println!(rt;
        "and not 129, 257 or 513 endpoints, as many heights and {support} + 1 curve values"
    )
}

// What a fault means: of which entry, and what its list must be.
fn meaning(
    rt: &impl Print,
    fault: LayerFault,
    counts: &[usize; 6],
    support: u64,
) -> io::Result<()> {
    let index = fault.index;
    match fault.refusal {
        Refusal::InvalidLayerTables => lengths(rt, counts, support),
        Refusal::InvalidEndpoint => {
            print!(rt;
                "endpoint {index} is wrong: the first is 0, none is below the one before it, "
            )?;
            println!(rt; "and the last is {support}")
        }
        Refusal::InvalidHeight => {
            print!(rt; "height {index} is wrong: each is finite, the first is above 0.999, ")?;
            println!(rt; "the others are below the one before them, and the last is 0")
        }
        _ => println!(rt; "curve value {index} is wrong: each is from 0 to 1"),
    }
}

// The number and the index, both 0 for good tables, and what they mean; so many numbers stand on each line of the text.
pub(crate) fn verdict(
    rt: &impl Print,
    checked: Result<(), LayerFault>,
    counts: &[usize; 6],
    support: u64,
) -> io::Result<()> {
    let fault = match checked {
        Ok(()) => return println!(rt; "0 0 the tables are good"),
        Err(fault) => fault,
    };
    let number = fault.refusal.number();
    let index = fault.index;
    print!(rt; "{number} {index} ")?;
    meaning(rt, fault, counts, support)
}

// Which number of the text is bad, and what should stand there.
pub(crate) fn bad(rt: &impl Print, line: usize, position: usize) -> io::Result<()> {
    print!(rt; "number {position} of the input is bad: ")?;
    let wanted = match line {
        1 => "the first line is the support alone, a whole number up to 18446744073709551615",
        2 => "the second line is up to 1024 endpoints, whole numbers up to 18446744073709551615",
        3 => "the third line is up to 1024 heights, each the 16 hexadecimal digits of an f64",
        4 =>
            "the fourth line is up to 32768 curve values, each the 16 hexadecimal digits of an f64",
        _ => "after the fourth line stands nothing",
    };
    println!(rt; "{wanted}")
}
