// The magnitude of a signed integer.
ghost use Rattle.std.specs.Prelude.{◌≡◌, unsigned_abs};

// The magnitude of a signed integer.
pub fn magnitude(x: i64) -> u64
    ensures { result ≡ unsigned_abs x }
{
    x.unsigned_abs()
}
