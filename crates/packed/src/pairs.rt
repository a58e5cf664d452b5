// Tables of pairs: what two digits stand for, side by side, for each two digits of a base. The low digit runs
// first; what it stands for comes first.
ghost use Rattle.std.specs.Prelude.{◌≡◌, [], ◌∷◌};
ghost use Rattle.packed.specs.Pairs.{pairs_of};

// Pairs of bits.
pub(crate) fn bits<T: Copy>(a: T, b: T) -> [T; 8]
    ensures { result ≡ pairs_of (a ∷ b ∷ []) }
{
    [a, a, b, a, a, b, b, b]
}

// Pairs of two-bit groups.
pub(crate) fn groups<T: Copy>(a: T, b: T, c: T, d: T) -> [T; 32]
    ensures { result ≡ pairs_of (a ∷ b ∷ c ∷ d ∷ []) }
{
    [
        a, a, b, a, c, a, d, a, a, b, b, b, c, b, d, b, a, c, b, c, c, c, d, c, a, d, b, d, c, d,
        d, d,
    ]
}

// Pairs of trits.
pub(crate) fn trits<T: Copy>(a: T, b: T, c: T) -> [T; 18]
    ensures { result ≡ pairs_of (a ∷ b ∷ c ∷ []) }
{
    [a, a, b, a, c, a, a, b, b, b, c, b, a, c, b, c, c, c]
}
