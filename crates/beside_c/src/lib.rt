// The calls that a comparison beside the Rust, or beside plain C, makes, for a program that is not Rattle: each is the function of the crate `beside` under its
// own name, with that function's contract word for word. What a foreign caller must keep stands at the head of beside/src/lib.rt. tools/staticlib.sh builds
// it, as target/staticlib/libbeside.a.
#![tactic(auto)]

ghost use Rattle.std.specs.Prelude.{true, ◌≡◌, length, drop};
ghost use Rattle.distr.specs.Answers.{reported};
ghost use Rattle.distr.specs.Distribution.{Distr, skips_of};
ghost use Rattle.distr.specs.Draw.{crt_draw, crt_skips, encoded_draw, signed_draw};
ghost use Rattle.distr.specs.SamplePolyCbd.{sample_poly_cbd};
ghost use Rattle.stats.specs.Report.{report};
ghost use Rattle.signed_discrete_gaussian.specs.Lent.{lent};
ghost use Rattle.any_sampler.specs.Either.{any_at_once, any_skips, any_number};
ghost use Rattle.beside.specs.Calls.{answered, named, report_of, written};

// The number of making a sampler of a kind; 14 where the kind names no distribution.
#[unsafe(no_mangle)]
pub extern "C" fn beside_make(kind: u32, a: usize, b: usize, p: f64, q: f64) -> u32
    ensures { result ≡ any_number (named kind a b p q) }
{
    beside::beside_make(kind, a, b, p, q)
}

// A draw of signed coefficients.
#[unsafe(no_mangle)]
pub extern "C" fn beside_signed(
    kind: u32,
    a: usize,
    b: usize,
    p: f64,
    q: f64,
    bounds: &[u64],
    endpoints: &[u64],
    heights: &[f64],
    curve: &[f64],
    words: &[u32],
    place: usize,
    output: &mut [i64],
    new_place: &mut usize,
    index: &mut usize,
    skipped_words: &mut u64,
    skipped_bytes: &mut u64,
) -> u32
    ensures output_after { answered result new_place.new index.new output.new ≡ any_at_once (named kind a b p q) place output.old (λ (d : Distr). signed_draw true d
        (lent bounds.now endpoints.now heights.now curve.now)
        words.now place output.old) }
    ensures skipped_bytes_after { written skipped_words.new skipped_bytes.new ≡ reported result (any_skips (named kind a b p q) (λ (d : Distr). skips_of d (length output.old) (lent bounds.now endpoints.now heights.now curve.now) (drop place words.now))) }
{
    beside::beside_signed(
        kind,
        a,
        b,
        p,
        q,
        bounds,
        endpoints,
        heights,
        curve,
        words,
        place,
        output,
        new_place,
        index,
        skipped_words,
        skipped_bytes,
    )
}

// A draw of residues of one modulus.
#[unsafe(no_mangle)]
pub extern "C" fn beside_encoded(
    kind: u32,
    a: usize,
    b: usize,
    p: f64,
    q: f64,
    modulus: u64,
    bounds: &[u64],
    endpoints: &[u64],
    heights: &[f64],
    curve: &[f64],
    words: &[u32],
    place: usize,
    output: &mut [u64],
    new_place: &mut usize,
    index: &mut usize,
    skipped_words: &mut u64,
    skipped_bytes: &mut u64,
) -> u32
    ensures output_after { answered result new_place.new index.new output.new ≡ any_at_once (named kind a b p q) place output.old (λ (d : Distr). encoded_draw true d
        (lent bounds.now endpoints.now heights.now curve.now)
        modulus words.now place output.old) }
    ensures skipped_bytes_after { written skipped_words.new skipped_bytes.new ≡ reported result (any_skips (named kind a b p q) (λ (d : Distr). skips_of d (length output.old) (lent bounds.now endpoints.now heights.now curve.now) (drop place words.now))) }
{
    beside::beside_encoded(
        kind,
        a,
        b,
        p,
        q,
        modulus,
        bounds,
        endpoints,
        heights,
        curve,
        words,
        place,
        output,
        new_place,
        index,
        skipped_words,
        skipped_bytes,
    )
}

// A draw of residues of several moduli.
#[unsafe(no_mangle)]
pub extern "C" fn beside_crt(
    kind: u32,
    a: usize,
    b: usize,
    p: f64,
    q: f64,
    coefficient_count: usize,
    moduli: &[u64],
    bounds: &[u64],
    endpoints: &[u64],
    heights: &[f64],
    curve: &[f64],
    words: &[u32],
    place: usize,
    output: &mut [u64],
    new_place: &mut usize,
    index: &mut usize,
    skipped_words: &mut u64,
    skipped_bytes: &mut u64,
) -> u32
    ensures output_after { answered result new_place.new index.new output.new ≡ any_at_once (named kind a b p q) place output.old (λ (d : Distr). crt_draw true d
        (lent bounds.now endpoints.now heights.now curve.now)
        coefficient_count moduli.now words.now place output.old) }
    ensures skipped_bytes_after { written skipped_words.new skipped_bytes.new ≡ reported result (any_skips (named kind a b p q) (λ (d : Distr). crt_skips d coefficient_count (lent bounds.now endpoints.now heights.now curve.now) (length output.old) (drop place words.now))) }
{
    beside::beside_crt(
        kind,
        a,
        b,
        p,
        q,
        coefficient_count,
        moduli,
        bounds,
        endpoints,
        heights,
        curve,
        words,
        place,
        output,
        new_place,
        index,
        skipped_words,
        skipped_bytes,
    )
}

// A report: its number is handed back, its sign and the halves of its sums are written through the references, zeros where it is refused.
#[unsafe(no_mangle)]
pub extern "C" fn beside_report(
    residues: &[u64],
    modulus: u64,
    limits: &[u64],
    counts: &mut [u64],
    negative: &mut bool,
    sum_high: &mut u64,
    sum_low: &mut u64,
    squares_high: &mut u64,
    squares_low: &mut u64,
) -> u32
    ensures { (
      report_of result negative.new sum_high.new sum_low.new
          squares_high.new squares_low.new,
      counts.new,
    )
        ≡ report residues.now modulus limits.now counts.old }
{
    beside::beside_report(
        residues,
        modulus,
        limits,
        counts,
        negative,
        sum_high,
        sum_low,
        squares_high,
        squares_low,
    )
}

// A polynomial from bytes: its number is handed back, and a refusal writes nothing.
#[unsafe(no_mangle)]
pub extern "C" fn beside_sample_poly_cbd(output: &mut [u64], eta: u32, bytes: &[u8]) -> u32
    ensures { (result, output.new) ≡ sample_poly_cbd eta bytes.now output.old }
{
    beside::beside_sample_poly_cbd(output, eta, bytes)
}
