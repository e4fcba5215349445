ghost use Rattle.std.specs.Prelude.{◌≡◌, true, false};
ghost use Rattle.ug_branch.specs.Numbers.{first_params};
ghost use Rattle.ug_rules.specs.Deciding.{racer_params};
ghost use Rattle.ug_stock.specs.Telling.{told_under};

use crate::terms::Terms;
use ug_branch::Params;
use ug_frames::Order;
use ug_nodes::Changes;
use ug_rules::Told;

/// The order for a rank to work on the box of these changes, under the ticket of this number, with
/// the first params of the base.
pub fn node_order(terms: Terms, rank: u32, number: u64, changes: Changes) -> Told
    ensures { result ≡ told_under terms rank number (first_params terms.base) false changes }
{
    Told {
        rank,
        order: Order::Work {
            ticket: terms.ticket(number),
            params: Params::first(terms.base),
            race: false,
            cutoff: terms.cutoff,
            changes,
        },
    }
}

/// The order for a rank to race for the box of these changes, under the ticket of this number, with
/// params of its own.
pub fn race_order(terms: Terms, rank: u32, number: u64, changes: Changes) -> Told
    ensures { result ≡ told_under terms rank number (racer_params rank) true changes }
{
    Told {
        rank,
        order: Order::Work {
            ticket: terms.ticket(number),
            params: racer_params(rank),
            race: true,
            cutoff: terms.cutoff,
            changes,
        },
    }
}

/// The params of a racer: the racers alternate between the bases.
pub fn racer_params(rank: u32) -> Params
    ensures { result ≡ racer_params rank }
{
    Params::new((rank % 2 * 8 + rank / 2 % 8) as u8)
}
