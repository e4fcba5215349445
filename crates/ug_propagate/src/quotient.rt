ghost use Rattle.std.specs.Prelude.{◌≡◌, ◌≢◌, ◌≤◌, ◌<ℤ◌, ◌^◌, pos, unsigned_abs};
ghost use Rattle.std.specs.Int.{int_div_euclid};
ghost use Rattle.ug_propagate.specs.Rounds.{floor_quotient, ceiling_quotient};

// `number` / `divisor`, rounded down, in 64 bits where both fit: that is faster.
#[tactic(auto, using(crate::proofs::Quotients::quotients))]
fn divide(number: i128, divisor: i128) -> i128
    requires divisor { pos 0 <ℤ divisor }
    ensures { result ≡ int_div_euclid number divisor }
{
    match (i64::try_from(number), i64::try_from(divisor)) {
        (Ok(number), Ok(divisor)) => i128::from(number.div_euclid(divisor)),
        _ => number.div_euclid(divisor),
    }
}

/// `number` / `divisor`, rounded down.
pub fn floor_div(number: i128, divisor: i128) -> i128
    requires nonzero { divisor ≢ pos 0 }
    requires number { unsigned_abs number ≤ 10 ^ 38 }
    requires divisor { unsigned_abs divisor ≤ 10 ^ 24 }
    ensures value { result ≡ floor_quotient number divisor }
    ensures small { unsigned_abs result ≤ 10 ^ 38 }
{
    if divisor > 0 {
        divide(number, divisor)
    } else {
        divide(-number, -divisor)
    }
}

/// `number` / `divisor`, rounded up.
pub fn ceiling_div(number: i128, divisor: i128) -> i128
    requires nonzero { divisor ≢ pos 0 }
    requires number { unsigned_abs number ≤ 10 ^ 38 }
    requires divisor { unsigned_abs divisor ≤ 10 ^ 24 }
    ensures value { result ≡ ceiling_quotient number divisor }
    ensures small { unsigned_abs result ≤ 10 ^ 38 }
{
    -floor_div(-number, divisor)
}
