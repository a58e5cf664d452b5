// The exam desk's entry for a program in C: `desk_draw` of the crate `desk` under its own name, with that function's contract word for word. What a caller
// must keep, since no contract can ask it of a foreign one, stands in include/desk.h. tools/staticlib.sh builds it, as target/staticlib/libdesk.a.
#![tactic(auto)]

ghost use Rattle.std.specs.Prelude.{◌≡◌};
ghost use Rattle.desk.specs.Desk.{desk_answer, desk_draw};

// Draws the question of a kind with its A, B and modulus from the words, which are bytes, from a place on into the output's bytes. The number is handed back;
// a success moves the place and reports the words and the bytes skipped. Any other number leaves the place and reports zeros; 23 writes zeros over the
// output, and every other refusal leaves it.
#[unsafe(no_mangle)]
pub extern "C" fn desk_draw(
    kind: u32,
    a: u32,
    b: u32,
    modulus: u32,
    words: &[u8],
    output: &mut [u8],
    place: &mut usize,
    skipped_words: &mut u64,
    skipped_bytes: &mut u64,
) -> u32
    ensures { desk_answer result place.new skipped_words.new skipped_bytes.new output.new
        ≡ desk_draw kind a b modulus words.now place.old output.old }
{
    desk::desk_draw(
        kind,
        a,
        b,
        modulus,
        words,
        output,
        place,
        skipped_words,
        skipped_bytes,
    )
}
