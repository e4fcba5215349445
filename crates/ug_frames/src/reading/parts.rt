ghost use Rattle.std.specs.Prelude.{◌≡◌, ◌<◌};
ghost use Rattle.ug_fields.specs.Reading.{Gives};
ghost use Rattle.ug_frames.specs.Reading.{ticket_at, params_of, params_at, race_at, positive_at};

use ug_branch::Params;
use ug_fields::{Fault, long_at, small_at, unsigned_at};
use ug_nodes::Ticket;

/// A ticket: its run and its number.
#[tactic(auto, unfolding(crate::specs::Reading::ticket_at))]
pub fn ticket_at(bytes: &[u8]) -> Result<(Ticket, &[u8]), Fault>
    ensures { Gives (λ x. (x.0, x.1.now)) result (ticket_at bytes.now) }
{
    let (run, rest) = long_at(bytes, 1)?;
    let (number, rest) = long_at(rest, 1)?;
    Ok((Ticket { run, number }, rest))
}

// The params with this number.
fn params_of(number: u8) -> Params
    requires { number < 16 }
    ensures { result ≡ params_of number }
{
    Params::new(number)
}

/// Params.
#[tactic(auto, unfolding(crate::specs::Reading::params_at))]
pub fn params_at(bytes: &[u8]) -> Result<(Params, &[u8]), Fault>
    ensures { Gives (λ x. (x.0, x.1.now)) result (params_at bytes.now) }
{
    let (number, rest) = small_at(bytes, 0, 15)?;
    Ok((params_of(number), rest))
}

/// Whether others have the same box.
#[tactic(auto, unfolding(crate::specs::Reading::race_at))]
pub fn race_at(bytes: &[u8]) -> Result<(bool, &[u8]), Fault>
    ensures { Gives (λ x. (x.0, x.1.now)) result (race_at bytes.now) }
{
    let (race, rest) = small_at(bytes, 0, 1)?;
    Ok((race == 1, rest))
}

/// A number of four bytes that is at least 1.
#[tactic(auto, unfolding(crate::specs::Reading::positive_at))]
pub fn positive_at(bytes: &[u8]) -> Result<(u32, &[u8]), Fault>
    ensures { Gives (λ x. (x.0, x.1.now)) result (positive_at bytes.now) }
{
    let (n, rest) = unsigned_at(bytes)?;
    if 1 <= n {
        Ok((n, rest))
    } else {
        Err(Fault::Bad(bytes.len()))
    }
}
