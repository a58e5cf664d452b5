// The words that a list has, by its kind: 0 is the bytes 0, 1, 2 and so on; 1 is random bytes; 2 is random bytes from 224 on, of which 19 in 32 are
// accepted; 3 is random bytes from 240 on, of which few are.
ghost use Rattle.std.specs.Prelude.{◌≡◌, ◌+◌, ◌*◌, ◌%◌, length};

// For the words of a kind, before they are written.
fn words_room() -> [u32; 96]
    ensures { 96 ≡ length result }
{
    [0; 96]
}

// The state of a linear congruential generator after one step more.
fn next_state(state: u32) -> u32
    ensures { result ≡ (state * 1664525 + 1013904223) % 4294967296 }
{
    ((state as u64 * 1664525 + 1013904223) % 0x1_0000_0000) as u32
}

// Word i of the bytes in order, which begin anew after 256: four bytes from 4 i on, the lowest first.
fn bytes_in_order(i: usize) -> u32
    ensures { result ≡ i % 64 * 4 * 16843009 + 50462976 }
{
    (i % 64 * 4 * 0x0101_0101 + 0x0302_0100) as u32
}

// The bits that every word of a kind has, so that its bytes are large.
fn bits_set(kind: u32) -> u32 {
    if kind == 2 {
        0xe0e0_e0e0
    } else if kind == 3 {
        0xf0f0_f0f0
    } else {
        0
    }
}

// Word i of a kind, from the state of that turn.
fn word_at(kind: u32, i: usize, state: u32) -> u32 {
    if kind == 0 {
        bytes_in_order(i)
    } else {
        state | bits_set(kind)
    }
}

// All words of a kind. The first has the state after one step from 1.
pub(crate) fn of_kind(kind: u32) -> [u32; 96]
    ensures { 96 ≡ length result }
{
    let mut words = words_room();
    let mut state = 1;
    for i in 0..96 {
        state = next_state(state);
        words[i] = word_at(kind, i, state);
    }
    words
}
