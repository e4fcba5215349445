ghost use Rattle.std.specs.Prelude.{◌≡◌, ◌≤ℤ◌, ◌*◌, ◌^◌, pos, min, unsigned_abs};
ghost use Rattle.ug_problem.specs.Better.{IsGap};
ghost use Rattle.ug_top.specs.Scaled.{scaled_gap};

/// The most by which two values differ.
const MOST: i128 = 40_000_000_000_000_000_000_000_000_000_000_000_000;

/// The gap in units of the scaled objective: it is multiplied by ten to the scale, up to 4*10^37.
#[tactic(auto, using(crate::proofs::Scales::one_more))]
pub fn scaled(gap: u64, scale: u8) -> i128
    ensures value { result ≡ scaled_gap gap scale }
    ensures gap { IsGap result }
{
    let mut scaled = i128::from(gap);
    for _ in 0..scale {
        scaled = ten_times(scaled);
    }
    scaled
}

// Ten times a number, up to the most.
fn ten_times(number: i128) -> i128
    requires low { pos 0 ≤ℤ number }
    requires high { number ≤ℤ pos (4 * 10 ^ 37) }
    ensures { result ≡ pos (min (unsigned_abs number * 10) (4 * 10 ^ 37)) }
{
    if number < MOST / 10 {
        number * 10
    } else {
        MOST
    }
}
