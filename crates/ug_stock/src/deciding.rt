ghost use Rattle.std.specs.Prelude.{◌≡◌, ◌<◌, ◌≤◌, ◌+◌, ◌^◌, IfErr, OnOk};
ghost use Rattle.ug_rules.specs.Deciding.{below_cutoff};
ghost use Rattle.ug_stock.specs.Decisions.{CanDecide, HasDecided, HasStood};
ghost use Rattle.ug_stock.specs.Frontiers.{HasRoom};

use crate::frontier::Frontier;
use crate::run::Run;
use crate::terms::Terms;
use crate::unfinished::Unfinished;
use ug_pool::{OpenNodes, Pool};

impl Frontier {
    /// Makes the five parts of a decision under this cutoff, in order.
    pub fn decide(&mut self, run: &Run, cutoff: Option<i128>) -> Result<(), Unfinished>
        requires can { CanDecide run.now self.old }
        requires room { HasRoom self.old }
        ensures decided { OnOk result (HasDecided run.now cutoff self.old self.new) }
        ensures stands { IfErr result (λ e. HasStood run.now cutoff self.old self.new e.stood) }
        // The first step takes no memory.
        ensures some { IfErr result (λ e. 0 < e.stood) }
        ensures room { HasRoom self.new }
    {
        drop_hopeless(&mut self.pool, cutoff);
        let Ok(()) = self.announce(cutoff) else {
            return Err(Unfinished { stood: 1 });
        };
        let Ok(()) = self.end_race(run.alloc, run.settings.winner) else {
            return Err(Unfinished { stood: 2 });
        };
        let terms = Terms {
            run: run.number,
            racing: run.settings.racing,
            base: run.settings.base,
            cutoff,
        };
        match self.give_out(run.alloc, terms) {
            Ok(given) => {
                let Ok(()) = self.collect(run.alloc, run.settings.low, run.settings.high) else {
                    return Err(Unfinished {
                        stood: standing(given),
                    });
                };
                Ok(())
            }
            Err(stopped) => Err(Unfinished {
                stood: standing(stopped.steps),
            }),
        }
    }
}

// The nodes whose floor is at least the cutoff leave the pool.
#[tactic(auto, using(crate::proofs::Decisions::fewer_below))]
fn drop_hopeless(pool: &mut Pool, cutoff: Option<i128>)
    ensures entries { pool.new.entries ≡ below_cutoff cutoff pool.old.entries }
    ensures spare { pool.old.spare ≤ pool.new.spare }
{
    if let Some(cutoff) = cutoff {
        pool.drop_from(cutoff);
    }
}

// Returns the number of steps that stand after the first three parts and `steps` more, which are at
// most the number of ranks.
fn standing(steps: u64) -> u64
    ensures value { steps ≤ 2 ^ 32 → result ≡ steps + 3 }
    ensures some { 0 < result }
{
    steps.saturating_add(3)
}
