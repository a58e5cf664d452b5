// The bytes that trits come out of.
ghost use Rattle.std.specs.Prelude.{◌≡◌, ◌-◌, ◌*◌, ◌^◌, min};

// A byte below this holds five base-3 digits; another is skipped.
pub const ACCEPTED: u32 = 243;

// How far whole words were stored: so many values, and the place of the next word.
#[derive(Clone, Copy, Debug, PartialEq, Eq)]
pub struct WordsStored {
    pub at: usize,
    pub place: usize,
}

// Where a reading of bytes stopped: the place after the last word read, and how many bytes of that word were not looked at.
#[derive(Clone, Copy, Debug, PartialEq, Eq)]
pub struct Ended {
    pub place: usize,
    pub left: usize,
}

// How many bytes of the words taken were rejected: all but the others, those accepted and those left. A number above 2^64 - 1 is given as that.
// The words that the others would fill come off first, so that no sum wraps and one test tells whether 2^62 words or more are left.
pub fn rejected_bytes(taken: usize, others: usize) -> u64
    ensures { result ≡ min (4 * taken - others) (2 ^ 64 - 1) }
{
    let filled = others / 4 + (others % 4 + 3) / 4;
    if taken < filled {
        return 0;
    }
    let words = taken - filled;
    if words < 0x4000_0000_0000_0000 {
        (4 * words + (4 - others % 4) % 4) as u64
    } else {
        0xffff_ffff_ffff_ffff
    }
}
