ghost use Rattle.std.specs.Prelude.{◌≡◌};
ghost use Rattle.ug_fields.specs.Reading.{Gives, optional_at};

use crate::fault::Fault;
use crate::numbers::{number_at, small_at};

/// A number of at most so much in absolute value, or none: a flag, and the number where there is
/// one.
#[tactic(auto, unfolding(crate::specs::Reading::flagged_at, crate::specs::Reading::flagged_if))]
pub fn optional_at(bytes: &[u8], most: u128) -> Result<(Option<i128>, &[u8]), Fault>
    ensures { Gives (λ x. (x.0, x.1.now)) result (optional_at most bytes.now) }
{
    let (flag, rest) = small_at(bytes, 0, 1)?;
    if flag == 0 {
        return Ok((None, rest));
    }
    let (number, rest) = number_at(rest, most)?;
    Ok((Some(number), rest))
}
