// The limits of document 01, under the Rust's names where it has one.
// Longest output of a draw.
pub const MAX_OUTPUT: usize = 65536;
// Largest eta of a centered binomial.
pub const MAX_ETA: u32 = 32;
// Smallest deviation that a Gaussian takes.
pub const MIN_STANDARD_DEVIATION: f64 = 0.7;
// Number of standard deviations retained on each side of zero.
pub const DEFAULT_TAIL_CUT: f64 = 12.0;
// Largest magnitude drawn by a cumulative table; above it the layered draw serves.
pub const CDT_MAX_MAGNITUDE: u64 = 255;
// Largest magnitude of a Gaussian.
pub const MAX_MAGNITUDE: u64 = 4095;
// Longest sheet in bytes, most coefficients and most words of one.
pub const MAX_SHEET_BYTES: usize = 65536;

pub const MAX_SHEET_COEFFICIENTS: u32 = 4096;

pub const MAX_SHEET_WORDS: u32 = 8192;

// Largest modulus of a report over residues (02 [2]).
pub const MAX_EXACT_F64_INTEGER: u64 = 0x20_0000_0000_0000;

// Most coefficients and most words of a desk request (02 [4]).
pub const MAX_DESK_COEFFICIENTS: usize = 4096;

pub const MAX_DESK_WORDS: usize = 8192;
