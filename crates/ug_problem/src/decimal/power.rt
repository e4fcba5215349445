ghost use Rattle.std.specs.Prelude.{◌*◌, ◌<◌, ◌^◌, SomeIff};

// A tenth of the least number of 39 digits.
const TENTH: u128 = 10_000_000_000_000_000_000_000_000_000_000_000_000;

// The number times ten, if it has at most 38 digits.
fn times_ten(number: u128) -> Option<u128>
    ensures { SomeIff result (number * 10 < 10 ^ 38) (number * 10) }
{
    if number < TENTH {
        Some(number * 10)
    } else {
        None
    }
}

// The number times 10^`power`, if it has at most 38 digits. Powers are taken for those above 1
// alone.
#[tactic(auto, using(crate::proofs::Powers::power_small, crate::proofs::Powers::raised_below, crate::proofs::Powers::raised_above, crate::proofs::Powers::raised_far))]
pub fn times_power(number: u128, power: u32) -> Option<u128>
    requires { number < 10 ^ 38 }
    ensures { SomeIff result (number * 10 ^ power < 10 ^ 38) (number * 10 ^ power) }
{
    if number == 0 {
        return Some(0);
    }
    if power == 0 {
        return Some(number);
    }
    if power == 1 {
        return times_ten(number);
    }
    if power > 37 {
        return None;
    }
    if number < 10u128.pow(38 - power) {
        Some(number * 10u128.pow(power))
    } else {
        None
    }
}
