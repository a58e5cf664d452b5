// Plans of insertions. A plan says what fills and what is inserted, whatever the output's type.
ghost use Rattle.std.specs.Prelude.{◌≡◌, ◌+◌, ◌≤◌};
ghost use Rattle.fixed_weights.specs.Plans.{composition_plan, only_first, binary_plan, weight_number};
ghost use Rattle.distr.specs.Refusals.{number_of, Makes};

use distr::refusal::Refusal;
use numbers::check_draw;
use ternary::ternary::TernaryValue;

// One value fills; copies of a first and then of a second are inserted.
#[derive(Clone, Copy, Debug, PartialEq, Eq)]
pub struct Plan {
    pub fill: TernaryValue,
    pub first: TernaryValue,
    pub firsts: usize,
    pub second: TernaryValue,
    pub seconds: usize,
}

// Tests a draw of n coefficients with so many of two values: 22 past the end of the words, 6 too long, 7 too many.
pub fn check_weights(
    word_count: usize,
    place: usize,
    n: usize,
    first: usize,
    second: usize,
) -> Result<(), Refusal>
    ensures { number_of result ≡ weight_number word_count place n (first + second) }
{
    let own = numbers::check_weights(first, second, n);
    check_draw(word_count, place, n, own)
}

// The commonest value fills, at ties 0 before -1 before 1, and the other two are inserted in that order.
fn commonest_fills(minus: usize, ones: usize, n: usize) -> Plan
    requires { minus + ones ≤ n }
    ensures { result ≡ composition_plan minus ones n }
{
    let zeros = n - minus - ones;
    if minus <= zeros && ones <= zeros {
        return Plan {
            fill: TernaryValue::Zero,
            first: TernaryValue::MinusOne,
            firsts: minus,
            second: TernaryValue::One,
            seconds: ones,
        };
    }
    if ones <= minus {
        return Plan {
            fill: TernaryValue::MinusOne,
            first: TernaryValue::Zero,
            firsts: zeros,
            second: TernaryValue::One,
            seconds: ones,
        };
    }
    Plan {
        fill: TernaryValue::One,
        first: TernaryValue::Zero,
        firsts: zeros,
        second: TernaryValue::MinusOne,
        seconds: minus,
    }
}

// The plan of n coefficients with so many -1 and so many 1, the rest zeros, or why the draw is refused.
#[tactic(auto, using(crate::proofs::Judging::number_light))]
pub fn composition_plan(
    word_count: usize,
    place: usize,
    n: usize,
    minus: usize,
    ones: usize,
) -> Result<Plan, Refusal>
    ensures { Makes (weight_number word_count place n (minus + ones)) (composition_plan minus ones n) result }
{
    check_weights(word_count, place, n, minus, ones)?;
    Ok(commonest_fills(minus, ones, n))
}

// A plan that inserts one value alone; the second is 0, inserted no times.
fn only_first(fill: TernaryValue, first: TernaryValue, firsts: usize) -> Plan
    ensures { result ≡ only_first fill first firsts }
{
    Plan {
        fill,
        first,
        firsts,
        second: TernaryValue::Zero,
        seconds: 0,
    }
}

// Ones into zeros, or zeros into ones where there are fewer of those.
fn rarer_inserted(hamming_weight: usize, n: usize) -> Plan
    requires { hamming_weight ≤ n }
    ensures { result ≡ binary_plan hamming_weight n }
{
    let zeros = n - hamming_weight;
    if hamming_weight <= zeros {
        only_first(TernaryValue::Zero, TernaryValue::One, hamming_weight)
    } else {
        only_first(TernaryValue::One, TernaryValue::Zero, zeros)
    }
}

// The plan of n coefficients with so many ones, the rest zeros, or why the draw is refused.
#[tactic(auto, using(crate::proofs::Judging::number_light))]
pub fn binary_plan(
    word_count: usize,
    place: usize,
    n: usize,
    hamming_weight: usize,
) -> Result<Plan, Refusal>
    ensures { Makes (weight_number word_count place n hamming_weight) (binary_plan hamming_weight n) result }
{
    check_weights(word_count, place, n, hamming_weight, 0)?;
    Ok(rarer_inserted(hamming_weight, n))
}
