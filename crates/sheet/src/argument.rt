// The argument of the programs that asks for the third line.
ghost use Rattle.std.specs.Prelude.{◌≡◌};
ghost use Rattle.sheet.specs.Argument.{same_bytes, skipped_word};

// Whether an argument is the word `skipped`.
pub fn is_skipped(word: &[u8]) -> bool
    ensures { result ≡ same_bytes word.now skipped_word }
{
    if word.len() != 7 {
        return false;
    }
    (word[0] == b's')
        & (word[1] == b'k')
        & (word[2] == b'i')
        & (word[3] == b'p')
        & (word[4] == b'p')
        & (word[5] == b'e')
        & (word[6] == b'd')
}
