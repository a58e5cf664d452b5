// The row of one modulus of a CRT buffer: the part that is handed back, and the whole buffer after the row was written to in place.
use crate::print;
use crt::{crt_row, crt_row_range};
use std::io;

// Writes 8 to a row's last element and 7 to its first.
fn mark(output: &mut [u64], coefficient_count: usize, moduli_count: usize, i: usize) {
    let row = crt_row_range(output.len(), coefficient_count, moduli_count, i);
    let start = row.start;
    let end = row.end;
    if start < end {
        let last = end - 1;
        output[last] = 8;
        output[start] = 7;
    }
}

// The label, the length of a part, and its first element and its last if it has any.
fn part_of(rt: &impl Print, label: &[u8], part: &[u64]) -> io::Result<()> {
    let n = part.len();
    rt.write_all(label)?;
    print!(rt; ":")?;
    print::unsigned(rt, n as u64)?;
    if 0 < n {
        print::unsigned(rt, part[0])?;
        print::unsigned(rt, part[n - 1])?;
    }
    Ok(())
}

// The rest of the line: the whole buffer.
fn whole(rt: &impl Print, buffer: &[u64; 6]) -> io::Result<()> {
    print!(rt; " of")?;
    print::unsigned(rt, buffer[0])?;
    print::unsigned(rt, buffer[1])?;
    print::unsigned(rt, buffer[2])?;
    print::unsigned(rt, buffer[3])?;
    print::unsigned(rt, buffer[4])?;
    print::unsigned(rt, buffer[5])?;
    print::end(rt)
}

// Takes row i of a buffer of two rows of three, then writes to that row in place.
pub(crate) fn row(
    rt: &impl Print,
    label: &[u8],
    coefficient_count: usize,
    moduli_count: usize,
    i: usize,
) -> io::Result<()> {
    let mut buffer = [10u64, 11, 12, 20, 21, 22];
    part_of(
        rt,
        label,
        crt_row(&buffer, coefficient_count, moduli_count, i),
    )?;
    mark(&mut buffer, coefficient_count, moduli_count, i);
    whole(rt, &buffer)
}
