ghost use Rattle.std.specs.Prelude.{◌≡◌, ◌<◌, IfErr, OnOk};
ghost use Rattle.ug_laws.specs.Events.{IsEvent};
ghost use Rattle.ug_laws.specs.DiskEvents.{IsSendable, rank_of};
ghost use Rattle.ug_model.specs.DiskHalts.{IsPastRanks};

use crate::halt::Halted;
use ug_laws::Event;

/// Is the rank that an event names, if it names one, below `ranks`?
pub fn check_rank(event: &Event, ranks: u32) -> Result<(), Halted>
    requires { IsSendable event.now }
    ensures there { OnOk result (IsEvent ranks event.now) }
    ensures halted { IfErr result (IsPastRanks ranks event.now) }
{
    match event {
        Event::Hear { rank, .. } | Event::Join { rank } | Event::Gone { rank } => {
            if *rank >= ranks {
                return Err(Halted::NoRank { rank: *rank });
            }
            Ok(())
        }
        Event::Send { .. } | Event::Decide | Event::Tell => Ok(()),
    }
}
