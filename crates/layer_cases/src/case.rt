// A case: a line of whole numbers, a request and changes of the tables.
use crate::figures::{CURVE, ENDPOINTS, HEIGHTS, change_all, fill_reals, part, reals_part};
use crate::{error_draws, key_draws, print};
use primus_distr::check_layer_tables;
use residue_text::number::ALL;
use residue_text::numbers::read_numbers;
use std::io;

// Whether a line has the numbers of a request and whole changes, and asks for no more than there is room for.
fn has_room(request: &[u64; 64], count: usize) -> bool {
    (11 <= count)
        & (count % 2 == 1)
        & (request[0] <= 70000)
        & (request[2] <= 70000)
        & (request[6] <= 64)
        & (request[8] <= 1000)
        & (request[9] <= 1000)
        & (request[10] <= 5000)
}

// The verdict on the tables, of which so many entries are lent as the line says, and the draws by them from words that are all 0.
fn answer_tables(
    rt: &impl Print,
    request: &[u64; 64],
    figures: &[u64; 8192],
    reals: &[f64; 8192],
) -> io::Result<()> {
    let endpoints = part(figures, ENDPOINTS, request[8] as usize);
    let heights = reals_part(reals, HEIGHTS, request[9] as usize);
    let curve = reals_part(reals, CURVE, request[10] as usize);
    let word_count = request[6] as usize;
    if 64 < word_count {
        return Ok(());
    }
    let zeros = [0u32; 64];
    let words = &zeros[0..word_count];
    let deviation = reals[2];
    print::verdict(
        rt,
        check_layer_tables(figures[1], endpoints, heights, curve),
    )?;
    error_draws::draw_coefficients(rt, deviation, request, endpoints, heights, curve, words)?;
    error_draws::draw_rows(rt, deviation, request, endpoints, heights, curve, words)?;
    key_draws::draw_coefficients(rt, deviation, request, endpoints, heights, curve, words)?;
    key_draws::draw_rows(rt, deviation, request, endpoints, heights, curve, words)?;
    print!(rt; "\n")
}

// Answers a line over a copy of the figures.
pub(crate) fn answer_case(rt: &impl Print, line: &[u8], figures: [u64; 8192]) -> io::Result<()> {
    let mut request = [0u64; 64];
    let read = read_numbers(line, ALL, &mut request);
    if read.more | !has_room(&request, read.count) {
        return print::bad_line(rt);
    }
    let mut changed = figures;
    change_all(&request, &mut changed);
    let mut reals = [0.0f64; 8192];
    fill_reals(&changed, &mut reals);
    answer_tables(rt, &request, &changed, &reals)
}
