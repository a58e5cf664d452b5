// The table of trits (02 [5]), and where the trits of a byte stand in a table of pairs: by that table, or by division.
ghost use Rattle.std.specs.Prelude.{◌≡◌};
ghost use Rattle.packed.specs.TritTable.{kept_table, TableRule, places_by};

use crate::bytes::ACCEPTED;

// The weights of the five digits in the number that keeps a group. A table of pairs has the pair of two trits, low and high, at twice the low one and six
// times the high one: so the lowest byte says where the first pair stands, the next byte where the second does, and what is above where the last trit does.
const D0: u32 = 2;

const D1: u32 = 6;

const D2: u32 = 512;

const D3: u32 = 1536;

const D4: u32 = 131072;

// A number for each byte from 0 to 242.
pub type TritTable = [u32; 243];

// "243 groups of five digits, 1,215 numbers": the digits of each byte from 0 to 242 in base 3, lowest first, as the program `trit_page` works them out and prints
// them. A group is kept in one number, its digits by their weights, so that a draw finds the trits of a byte by one look into the table.
const TRITS: TritTable = [
    0 * D0 + 0 * D1 + 0 * D2 + 0 * D3 + 0 * D4,
    1 * D0 + 0 * D1 + 0 * D2 + 0 * D3 + 0 * D4,
    2 * D0 + 0 * D1 + 0 * D2 + 0 * D3 + 0 * D4,
    0 * D0 + 1 * D1 + 0 * D2 + 0 * D3 + 0 * D4,
    1 * D0 + 1 * D1 + 0 * D2 + 0 * D3 + 0 * D4,
    2 * D0 + 1 * D1 + 0 * D2 + 0 * D3 + 0 * D4,
    0 * D0 + 2 * D1 + 0 * D2 + 0 * D3 + 0 * D4,
    1 * D0 + 2 * D1 + 0 * D2 + 0 * D3 + 0 * D4,
    2 * D0 + 2 * D1 + 0 * D2 + 0 * D3 + 0 * D4,
    0 * D0 + 0 * D1 + 1 * D2 + 0 * D3 + 0 * D4,
    1 * D0 + 0 * D1 + 1 * D2 + 0 * D3 + 0 * D4,
    2 * D0 + 0 * D1 + 1 * D2 + 0 * D3 + 0 * D4,
    0 * D0 + 1 * D1 + 1 * D2 + 0 * D3 + 0 * D4,
    1 * D0 + 1 * D1 + 1 * D2 + 0 * D3 + 0 * D4,
    2 * D0 + 1 * D1 + 1 * D2 + 0 * D3 + 0 * D4,
    0 * D0 + 2 * D1 + 1 * D2 + 0 * D3 + 0 * D4,
    1 * D0 + 2 * D1 + 1 * D2 + 0 * D3 + 0 * D4,
    2 * D0 + 2 * D1 + 1 * D2 + 0 * D3 + 0 * D4,
    0 * D0 + 0 * D1 + 2 * D2 + 0 * D3 + 0 * D4,
    1 * D0 + 0 * D1 + 2 * D2 + 0 * D3 + 0 * D4,
    2 * D0 + 0 * D1 + 2 * D2 + 0 * D3 + 0 * D4,
    0 * D0 + 1 * D1 + 2 * D2 + 0 * D3 + 0 * D4,
    1 * D0 + 1 * D1 + 2 * D2 + 0 * D3 + 0 * D4,
    2 * D0 + 1 * D1 + 2 * D2 + 0 * D3 + 0 * D4,
    0 * D0 + 2 * D1 + 2 * D2 + 0 * D3 + 0 * D4,
    1 * D0 + 2 * D1 + 2 * D2 + 0 * D3 + 0 * D4,
    2 * D0 + 2 * D1 + 2 * D2 + 0 * D3 + 0 * D4,
    0 * D0 + 0 * D1 + 0 * D2 + 1 * D3 + 0 * D4,
    1 * D0 + 0 * D1 + 0 * D2 + 1 * D3 + 0 * D4,
    2 * D0 + 0 * D1 + 0 * D2 + 1 * D3 + 0 * D4,
    0 * D0 + 1 * D1 + 0 * D2 + 1 * D3 + 0 * D4,
    1 * D0 + 1 * D1 + 0 * D2 + 1 * D3 + 0 * D4,
    2 * D0 + 1 * D1 + 0 * D2 + 1 * D3 + 0 * D4,
    0 * D0 + 2 * D1 + 0 * D2 + 1 * D3 + 0 * D4,
    1 * D0 + 2 * D1 + 0 * D2 + 1 * D3 + 0 * D4,
    2 * D0 + 2 * D1 + 0 * D2 + 1 * D3 + 0 * D4,
    0 * D0 + 0 * D1 + 1 * D2 + 1 * D3 + 0 * D4,
    1 * D0 + 0 * D1 + 1 * D2 + 1 * D3 + 0 * D4,
    2 * D0 + 0 * D1 + 1 * D2 + 1 * D3 + 0 * D4,
    0 * D0 + 1 * D1 + 1 * D2 + 1 * D3 + 0 * D4,
    1 * D0 + 1 * D1 + 1 * D2 + 1 * D3 + 0 * D4,
    2 * D0 + 1 * D1 + 1 * D2 + 1 * D3 + 0 * D4,
    0 * D0 + 2 * D1 + 1 * D2 + 1 * D3 + 0 * D4,
    1 * D0 + 2 * D1 + 1 * D2 + 1 * D3 + 0 * D4,
    2 * D0 + 2 * D1 + 1 * D2 + 1 * D3 + 0 * D4,
    0 * D0 + 0 * D1 + 2 * D2 + 1 * D3 + 0 * D4,
    1 * D0 + 0 * D1 + 2 * D2 + 1 * D3 + 0 * D4,
    2 * D0 + 0 * D1 + 2 * D2 + 1 * D3 + 0 * D4,
    0 * D0 + 1 * D1 + 2 * D2 + 1 * D3 + 0 * D4,
    1 * D0 + 1 * D1 + 2 * D2 + 1 * D3 + 0 * D4,
    2 * D0 + 1 * D1 + 2 * D2 + 1 * D3 + 0 * D4,
    0 * D0 + 2 * D1 + 2 * D2 + 1 * D3 + 0 * D4,
    1 * D0 + 2 * D1 + 2 * D2 + 1 * D3 + 0 * D4,
    2 * D0 + 2 * D1 + 2 * D2 + 1 * D3 + 0 * D4,
    0 * D0 + 0 * D1 + 0 * D2 + 2 * D3 + 0 * D4,
    1 * D0 + 0 * D1 + 0 * D2 + 2 * D3 + 0 * D4,
    2 * D0 + 0 * D1 + 0 * D2 + 2 * D3 + 0 * D4,
    0 * D0 + 1 * D1 + 0 * D2 + 2 * D3 + 0 * D4,
    1 * D0 + 1 * D1 + 0 * D2 + 2 * D3 + 0 * D4,
    2 * D0 + 1 * D1 + 0 * D2 + 2 * D3 + 0 * D4,
    0 * D0 + 2 * D1 + 0 * D2 + 2 * D3 + 0 * D4,
    1 * D0 + 2 * D1 + 0 * D2 + 2 * D3 + 0 * D4,
    2 * D0 + 2 * D1 + 0 * D2 + 2 * D3 + 0 * D4,
    0 * D0 + 0 * D1 + 1 * D2 + 2 * D3 + 0 * D4,
    1 * D0 + 0 * D1 + 1 * D2 + 2 * D3 + 0 * D4,
    2 * D0 + 0 * D1 + 1 * D2 + 2 * D3 + 0 * D4,
    0 * D0 + 1 * D1 + 1 * D2 + 2 * D3 + 0 * D4,
    1 * D0 + 1 * D1 + 1 * D2 + 2 * D3 + 0 * D4,
    2 * D0 + 1 * D1 + 1 * D2 + 2 * D3 + 0 * D4,
    0 * D0 + 2 * D1 + 1 * D2 + 2 * D3 + 0 * D4,
    1 * D0 + 2 * D1 + 1 * D2 + 2 * D3 + 0 * D4,
    2 * D0 + 2 * D1 + 1 * D2 + 2 * D3 + 0 * D4,
    0 * D0 + 0 * D1 + 2 * D2 + 2 * D3 + 0 * D4,
    1 * D0 + 0 * D1 + 2 * D2 + 2 * D3 + 0 * D4,
    2 * D0 + 0 * D1 + 2 * D2 + 2 * D3 + 0 * D4,
    0 * D0 + 1 * D1 + 2 * D2 + 2 * D3 + 0 * D4,
    1 * D0 + 1 * D1 + 2 * D2 + 2 * D3 + 0 * D4,
    2 * D0 + 1 * D1 + 2 * D2 + 2 * D3 + 0 * D4,
    0 * D0 + 2 * D1 + 2 * D2 + 2 * D3 + 0 * D4,
    1 * D0 + 2 * D1 + 2 * D2 + 2 * D3 + 0 * D4,
    2 * D0 + 2 * D1 + 2 * D2 + 2 * D3 + 0 * D4,
    0 * D0 + 0 * D1 + 0 * D2 + 0 * D3 + 1 * D4,
    1 * D0 + 0 * D1 + 0 * D2 + 0 * D3 + 1 * D4,
    2 * D0 + 0 * D1 + 0 * D2 + 0 * D3 + 1 * D4,
    0 * D0 + 1 * D1 + 0 * D2 + 0 * D3 + 1 * D4,
    1 * D0 + 1 * D1 + 0 * D2 + 0 * D3 + 1 * D4,
    2 * D0 + 1 * D1 + 0 * D2 + 0 * D3 + 1 * D4,
    0 * D0 + 2 * D1 + 0 * D2 + 0 * D3 + 1 * D4,
    1 * D0 + 2 * D1 + 0 * D2 + 0 * D3 + 1 * D4,
    2 * D0 + 2 * D1 + 0 * D2 + 0 * D3 + 1 * D4,
    0 * D0 + 0 * D1 + 1 * D2 + 0 * D3 + 1 * D4,
    1 * D0 + 0 * D1 + 1 * D2 + 0 * D3 + 1 * D4,
    2 * D0 + 0 * D1 + 1 * D2 + 0 * D3 + 1 * D4,
    0 * D0 + 1 * D1 + 1 * D2 + 0 * D3 + 1 * D4,
    1 * D0 + 1 * D1 + 1 * D2 + 0 * D3 + 1 * D4,
    2 * D0 + 1 * D1 + 1 * D2 + 0 * D3 + 1 * D4,
    0 * D0 + 2 * D1 + 1 * D2 + 0 * D3 + 1 * D4,
    1 * D0 + 2 * D1 + 1 * D2 + 0 * D3 + 1 * D4,
    2 * D0 + 2 * D1 + 1 * D2 + 0 * D3 + 1 * D4,
    0 * D0 + 0 * D1 + 2 * D2 + 0 * D3 + 1 * D4,
    1 * D0 + 0 * D1 + 2 * D2 + 0 * D3 + 1 * D4,
    2 * D0 + 0 * D1 + 2 * D2 + 0 * D3 + 1 * D4,
    0 * D0 + 1 * D1 + 2 * D2 + 0 * D3 + 1 * D4,
    1 * D0 + 1 * D1 + 2 * D2 + 0 * D3 + 1 * D4,
    2 * D0 + 1 * D1 + 2 * D2 + 0 * D3 + 1 * D4,
    0 * D0 + 2 * D1 + 2 * D2 + 0 * D3 + 1 * D4,
    1 * D0 + 2 * D1 + 2 * D2 + 0 * D3 + 1 * D4,
    2 * D0 + 2 * D1 + 2 * D2 + 0 * D3 + 1 * D4,
    0 * D0 + 0 * D1 + 0 * D2 + 1 * D3 + 1 * D4,
    1 * D0 + 0 * D1 + 0 * D2 + 1 * D3 + 1 * D4,
    2 * D0 + 0 * D1 + 0 * D2 + 1 * D3 + 1 * D4,
    0 * D0 + 1 * D1 + 0 * D2 + 1 * D3 + 1 * D4,
    1 * D0 + 1 * D1 + 0 * D2 + 1 * D3 + 1 * D4,
    2 * D0 + 1 * D1 + 0 * D2 + 1 * D3 + 1 * D4,
    0 * D0 + 2 * D1 + 0 * D2 + 1 * D3 + 1 * D4,
    1 * D0 + 2 * D1 + 0 * D2 + 1 * D3 + 1 * D4,
    2 * D0 + 2 * D1 + 0 * D2 + 1 * D3 + 1 * D4,
    0 * D0 + 0 * D1 + 1 * D2 + 1 * D3 + 1 * D4,
    1 * D0 + 0 * D1 + 1 * D2 + 1 * D3 + 1 * D4,
    2 * D0 + 0 * D1 + 1 * D2 + 1 * D3 + 1 * D4,
    0 * D0 + 1 * D1 + 1 * D2 + 1 * D3 + 1 * D4,
    1 * D0 + 1 * D1 + 1 * D2 + 1 * D3 + 1 * D4,
    2 * D0 + 1 * D1 + 1 * D2 + 1 * D3 + 1 * D4,
    0 * D0 + 2 * D1 + 1 * D2 + 1 * D3 + 1 * D4,
    1 * D0 + 2 * D1 + 1 * D2 + 1 * D3 + 1 * D4,
    2 * D0 + 2 * D1 + 1 * D2 + 1 * D3 + 1 * D4,
    0 * D0 + 0 * D1 + 2 * D2 + 1 * D3 + 1 * D4,
    1 * D0 + 0 * D1 + 2 * D2 + 1 * D3 + 1 * D4,
    2 * D0 + 0 * D1 + 2 * D2 + 1 * D3 + 1 * D4,
    0 * D0 + 1 * D1 + 2 * D2 + 1 * D3 + 1 * D4,
    1 * D0 + 1 * D1 + 2 * D2 + 1 * D3 + 1 * D4,
    2 * D0 + 1 * D1 + 2 * D2 + 1 * D3 + 1 * D4,
    0 * D0 + 2 * D1 + 2 * D2 + 1 * D3 + 1 * D4,
    1 * D0 + 2 * D1 + 2 * D2 + 1 * D3 + 1 * D4,
    2 * D0 + 2 * D1 + 2 * D2 + 1 * D3 + 1 * D4,
    0 * D0 + 0 * D1 + 0 * D2 + 2 * D3 + 1 * D4,
    1 * D0 + 0 * D1 + 0 * D2 + 2 * D3 + 1 * D4,
    2 * D0 + 0 * D1 + 0 * D2 + 2 * D3 + 1 * D4,
    0 * D0 + 1 * D1 + 0 * D2 + 2 * D3 + 1 * D4,
    1 * D0 + 1 * D1 + 0 * D2 + 2 * D3 + 1 * D4,
    2 * D0 + 1 * D1 + 0 * D2 + 2 * D3 + 1 * D4,
    0 * D0 + 2 * D1 + 0 * D2 + 2 * D3 + 1 * D4,
    1 * D0 + 2 * D1 + 0 * D2 + 2 * D3 + 1 * D4,
    2 * D0 + 2 * D1 + 0 * D2 + 2 * D3 + 1 * D4,
    0 * D0 + 0 * D1 + 1 * D2 + 2 * D3 + 1 * D4,
    1 * D0 + 0 * D1 + 1 * D2 + 2 * D3 + 1 * D4,
    2 * D0 + 0 * D1 + 1 * D2 + 2 * D3 + 1 * D4,
    0 * D0 + 1 * D1 + 1 * D2 + 2 * D3 + 1 * D4,
    1 * D0 + 1 * D1 + 1 * D2 + 2 * D3 + 1 * D4,
    2 * D0 + 1 * D1 + 1 * D2 + 2 * D3 + 1 * D4,
    0 * D0 + 2 * D1 + 1 * D2 + 2 * D3 + 1 * D4,
    1 * D0 + 2 * D1 + 1 * D2 + 2 * D3 + 1 * D4,
    2 * D0 + 2 * D1 + 1 * D2 + 2 * D3 + 1 * D4,
    0 * D0 + 0 * D1 + 2 * D2 + 2 * D3 + 1 * D4,
    1 * D0 + 0 * D1 + 2 * D2 + 2 * D3 + 1 * D4,
    2 * D0 + 0 * D1 + 2 * D2 + 2 * D3 + 1 * D4,
    0 * D0 + 1 * D1 + 2 * D2 + 2 * D3 + 1 * D4,
    1 * D0 + 1 * D1 + 2 * D2 + 2 * D3 + 1 * D4,
    2 * D0 + 1 * D1 + 2 * D2 + 2 * D3 + 1 * D4,
    0 * D0 + 2 * D1 + 2 * D2 + 2 * D3 + 1 * D4,
    1 * D0 + 2 * D1 + 2 * D2 + 2 * D3 + 1 * D4,
    2 * D0 + 2 * D1 + 2 * D2 + 2 * D3 + 1 * D4,
    0 * D0 + 0 * D1 + 0 * D2 + 0 * D3 + 2 * D4,
    1 * D0 + 0 * D1 + 0 * D2 + 0 * D3 + 2 * D4,
    2 * D0 + 0 * D1 + 0 * D2 + 0 * D3 + 2 * D4,
    0 * D0 + 1 * D1 + 0 * D2 + 0 * D3 + 2 * D4,
    1 * D0 + 1 * D1 + 0 * D2 + 0 * D3 + 2 * D4,
    2 * D0 + 1 * D1 + 0 * D2 + 0 * D3 + 2 * D4,
    0 * D0 + 2 * D1 + 0 * D2 + 0 * D3 + 2 * D4,
    1 * D0 + 2 * D1 + 0 * D2 + 0 * D3 + 2 * D4,
    2 * D0 + 2 * D1 + 0 * D2 + 0 * D3 + 2 * D4,
    0 * D0 + 0 * D1 + 1 * D2 + 0 * D3 + 2 * D4,
    1 * D0 + 0 * D1 + 1 * D2 + 0 * D3 + 2 * D4,
    2 * D0 + 0 * D1 + 1 * D2 + 0 * D3 + 2 * D4,
    0 * D0 + 1 * D1 + 1 * D2 + 0 * D3 + 2 * D4,
    1 * D0 + 1 * D1 + 1 * D2 + 0 * D3 + 2 * D4,
    2 * D0 + 1 * D1 + 1 * D2 + 0 * D3 + 2 * D4,
    0 * D0 + 2 * D1 + 1 * D2 + 0 * D3 + 2 * D4,
    1 * D0 + 2 * D1 + 1 * D2 + 0 * D3 + 2 * D4,
    2 * D0 + 2 * D1 + 1 * D2 + 0 * D3 + 2 * D4,
    0 * D0 + 0 * D1 + 2 * D2 + 0 * D3 + 2 * D4,
    1 * D0 + 0 * D1 + 2 * D2 + 0 * D3 + 2 * D4,
    2 * D0 + 0 * D1 + 2 * D2 + 0 * D3 + 2 * D4,
    0 * D0 + 1 * D1 + 2 * D2 + 0 * D3 + 2 * D4,
    1 * D0 + 1 * D1 + 2 * D2 + 0 * D3 + 2 * D4,
    2 * D0 + 1 * D1 + 2 * D2 + 0 * D3 + 2 * D4,
    0 * D0 + 2 * D1 + 2 * D2 + 0 * D3 + 2 * D4,
    1 * D0 + 2 * D1 + 2 * D2 + 0 * D3 + 2 * D4,
    2 * D0 + 2 * D1 + 2 * D2 + 0 * D3 + 2 * D4,
    0 * D0 + 0 * D1 + 0 * D2 + 1 * D3 + 2 * D4,
    1 * D0 + 0 * D1 + 0 * D2 + 1 * D3 + 2 * D4,
    2 * D0 + 0 * D1 + 0 * D2 + 1 * D3 + 2 * D4,
    0 * D0 + 1 * D1 + 0 * D2 + 1 * D3 + 2 * D4,
    1 * D0 + 1 * D1 + 0 * D2 + 1 * D3 + 2 * D4,
    2 * D0 + 1 * D1 + 0 * D2 + 1 * D3 + 2 * D4,
    0 * D0 + 2 * D1 + 0 * D2 + 1 * D3 + 2 * D4,
    1 * D0 + 2 * D1 + 0 * D2 + 1 * D3 + 2 * D4,
    2 * D0 + 2 * D1 + 0 * D2 + 1 * D3 + 2 * D4,
    0 * D0 + 0 * D1 + 1 * D2 + 1 * D3 + 2 * D4,
    1 * D0 + 0 * D1 + 1 * D2 + 1 * D3 + 2 * D4,
    2 * D0 + 0 * D1 + 1 * D2 + 1 * D3 + 2 * D4,
    0 * D0 + 1 * D1 + 1 * D2 + 1 * D3 + 2 * D4,
    1 * D0 + 1 * D1 + 1 * D2 + 1 * D3 + 2 * D4,
    2 * D0 + 1 * D1 + 1 * D2 + 1 * D3 + 2 * D4,
    0 * D0 + 2 * D1 + 1 * D2 + 1 * D3 + 2 * D4,
    1 * D0 + 2 * D1 + 1 * D2 + 1 * D3 + 2 * D4,
    2 * D0 + 2 * D1 + 1 * D2 + 1 * D3 + 2 * D4,
    0 * D0 + 0 * D1 + 2 * D2 + 1 * D3 + 2 * D4,
    1 * D0 + 0 * D1 + 2 * D2 + 1 * D3 + 2 * D4,
    2 * D0 + 0 * D1 + 2 * D2 + 1 * D3 + 2 * D4,
    0 * D0 + 1 * D1 + 2 * D2 + 1 * D3 + 2 * D4,
    1 * D0 + 1 * D1 + 2 * D2 + 1 * D3 + 2 * D4,
    2 * D0 + 1 * D1 + 2 * D2 + 1 * D3 + 2 * D4,
    0 * D0 + 2 * D1 + 2 * D2 + 1 * D3 + 2 * D4,
    1 * D0 + 2 * D1 + 2 * D2 + 1 * D3 + 2 * D4,
    2 * D0 + 2 * D1 + 2 * D2 + 1 * D3 + 2 * D4,
    0 * D0 + 0 * D1 + 0 * D2 + 2 * D3 + 2 * D4,
    1 * D0 + 0 * D1 + 0 * D2 + 2 * D3 + 2 * D4,
    2 * D0 + 0 * D1 + 0 * D2 + 2 * D3 + 2 * D4,
    0 * D0 + 1 * D1 + 0 * D2 + 2 * D3 + 2 * D4,
    1 * D0 + 1 * D1 + 0 * D2 + 2 * D3 + 2 * D4,
    2 * D0 + 1 * D1 + 0 * D2 + 2 * D3 + 2 * D4,
    0 * D0 + 2 * D1 + 0 * D2 + 2 * D3 + 2 * D4,
    1 * D0 + 2 * D1 + 0 * D2 + 2 * D3 + 2 * D4,
    2 * D0 + 2 * D1 + 0 * D2 + 2 * D3 + 2 * D4,
    0 * D0 + 0 * D1 + 1 * D2 + 2 * D3 + 2 * D4,
    1 * D0 + 0 * D1 + 1 * D2 + 2 * D3 + 2 * D4,
    2 * D0 + 0 * D1 + 1 * D2 + 2 * D3 + 2 * D4,
    0 * D0 + 1 * D1 + 1 * D2 + 2 * D3 + 2 * D4,
    1 * D0 + 1 * D1 + 1 * D2 + 2 * D3 + 2 * D4,
    2 * D0 + 1 * D1 + 1 * D2 + 2 * D3 + 2 * D4,
    0 * D0 + 2 * D1 + 1 * D2 + 2 * D3 + 2 * D4,
    1 * D0 + 2 * D1 + 1 * D2 + 2 * D3 + 2 * D4,
    2 * D0 + 2 * D1 + 1 * D2 + 2 * D3 + 2 * D4,
    0 * D0 + 0 * D1 + 2 * D2 + 2 * D3 + 2 * D4,
    1 * D0 + 0 * D1 + 2 * D2 + 2 * D3 + 2 * D4,
    2 * D0 + 0 * D1 + 2 * D2 + 2 * D3 + 2 * D4,
    0 * D0 + 1 * D1 + 2 * D2 + 2 * D3 + 2 * D4,
    1 * D0 + 1 * D1 + 2 * D2 + 2 * D3 + 2 * D4,
    2 * D0 + 1 * D1 + 2 * D2 + 2 * D3 + 2 * D4,
    0 * D0 + 2 * D1 + 2 * D2 + 2 * D3 + 2 * D4,
    1 * D0 + 2 * D1 + 2 * D2 + 2 * D3 + 2 * D4,
    2 * D0 + 2 * D1 + 2 * D2 + 2 * D3 + 2 * D4,
];

// The table, for a draw to look into.
pub fn trit_table() -> TritTable
    ensures value { result ≡ kept_table }
    ensures table_rule { TableRule result }
{
    TRITS
}

// How the trits of a byte are found.
#[derive(Clone, Copy, Debug, PartialEq, Eq)]
pub enum TritsBy {
    // In the table: the engine's way.
    Table,
    // By dividing the byte, as the Rust finds them.
    Division,
}

// Where the trits of a byte stand in a table of pairs: the first two, the next two, and the last.
#[derive(Clone, Copy, Debug, PartialEq, Eq)]
pub struct Places {
    pub first: usize,
    pub second: usize,
    pub last: usize,
}

// A group, to be cut into places.
fn wide(x: u32) -> usize
    ensures { result ≡ x }
{
    x as usize
}

// The places of a byte's trits. A byte that is skipped has places too, so that nothing branches on it: in the table those of the byte 0.
#[tactic(auto, using(crate::proofs::TritTable::index_of), unfolding(crate::specs::TritTable::places_by))]
pub fn places_of(by: TritsBy, table: &TritTable, byte: u8) -> Places
    ensures { result ≡ places_by by table.now byte }
{
    let at = byte as usize;
    match by {
        TritsBy::Table => {
            let accepted = (at < ACCEPTED as usize) as usize;
            let group = wide(table[at * accepted]);
            Places {
                first: group % 256,
                second: group / 256 % 256,
                last: group / 65536,
            }
        }
        TritsBy::Division => Places {
            first: at % 9 * 2,
            second: at / 9 % 9 * 2,
            last: at / 81 * 2,
        },
    }
}
