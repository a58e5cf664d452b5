// Prints the page of trits (02 [5]): "one line for each byte from 0 to 242, its five digits lowest first with a space between". It is worked out by division,
// and not read from the table that the draws use.
#![tactic(auto)]

mod page;

use std::io;

fn main(rt: HostRuntime) -> io::Result<()> {
    rt.write_all(&page::page())
}
