ghost use Rattle.std.specs.Prelude.{◌≡◌};
ghost use Rattle.ug_fields.specs.Reading.{Gives};
ghost use Rattle.ug_image.specs.Reading.{heard_at, gap_at, counts_at};

use ug_fields::{Fault, amount_at, long_at};

/// What stands between the best point and the nodes.
#[derive(Clone, Copy)]
pub struct Counts {
    pub heard: u64,
    pub gap: i128,
    /// How many nodes there are.
    pub nodes: u64,
}

// How many reports were received: none before version 2.
#[tactic(auto, unfolding(crate::specs::Reading::heard_at))]
fn heard_at(bytes: &[u8], version: u8) -> Result<(u64, &[u8]), Fault>
    ensures { Gives (λ x. (x.0, x.1.now)) result (heard_at version bytes.now) }
{
    if version > 1 {
        long_at(bytes, 0)
    } else {
        Ok((0, bytes))
    }
}

const GREATEST_GAP: u128 = 40_000_000_000_000_000_000_000_000_000_000_000_000;

// The gap: 0 before version 3.
#[tactic(auto, unfolding(crate::specs::Reading::gap_at))]
fn gap_at(bytes: &[u8], version: u8) -> Result<(i128, &[u8]), Fault>
    ensures { Gives (λ x. (x.0, x.1.now)) result (gap_at version bytes.now) }
{
    if version > 2 {
        amount_at(bytes, GREATEST_GAP)
    } else {
        Ok((0, bytes))
    }
}

/// How many reports were received, the gap, and how many nodes there are.
#[tactic(auto, unfolding(crate::specs::Reading::counts_at))]
pub fn counts_at(bytes: &[u8], version: u8) -> Result<(Counts, &[u8]), Fault>
    ensures { Gives (λ x. (x.0, x.1.now)) result (counts_at version bytes.now) }
{
    let (heard, rest) = heard_at(bytes, version)?;
    let (gap, rest) = gap_at(rest, version)?;
    let (nodes, rest) = long_at(rest, 0)?;
    let counts = Counts { heard, gap, nodes };
    Ok((counts, rest))
}
