// How many words a packed draw of n values takes, rounded up without a sum that could wrap.
ghost use Rattle.std.specs.Prelude.{◌≡◌, ◌+◌, ◌/◌};

// Uniform binary: one after the whole ones, also where no bit of it is used.
pub fn binary_words(n: usize) -> usize
    ensures { result ≡ n / 32 + 1 }
{
    n / 32 + 1
}

// Sparse ternary: 16 two-bit groups a word.
pub fn sparse_words(n: usize) -> usize
    ensures { result ≡ (n + 15) / 16 }
{
    n / 16 + (n % 16 + 15) / 16
}

// Signs alone: 32 a word.
pub fn sign_words(n: usize) -> usize
    ensures { result ≡ (n + 31) / 32 }
{
    n / 32 + (n % 32 + 31) / 32
}
