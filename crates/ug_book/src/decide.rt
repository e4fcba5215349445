ghost use Rattle.std.specs.Prelude.{◌<◌, IfErr, OnOk};
ghost use Rattle.ug_rules.specs.Books.{IsSoundBook};
ghost use Rattle.ug_rules.specs.Deciding.{IsDecided, Stands};
ghost use Rattle.ug_rules.specs.DecidingLaws.{IsSettled};
ghost use Rattle.ug_book.specs.Views.{IsSameRun};

use crate::book::Book;
use ug_stock::Unfinished;

impl Book {
    /// Makes a decision: drops the nodes without a better point, announces a new cutoff, ends a
    /// race that is won, starts one that is due or else assigns nodes, and asks for open nodes or
    /// says that there are enough. An error says how many of its steps stand.
    ///
    /// After it no node in the pool is beyond the incumbent's cutoff, and no rank is idle beside a
    /// node that it could have. A sound book stays sound, after an error too.
    pub fn decide(&mut self) -> Result<(), Unfinished>
        ensures decided { OnOk result (IsDecided self.old self.new) }
        ensures settled { OnOk result (IsSettled self.new) }
        ensures same { IsSameRun self.old self.new }
        ensures stands { IfErr result (λ e. Stands e.stood self.old self.new) }
        // The first step takes no memory.
        ensures some { IfErr result (λ e. 0 < e.stood) }
        ensures sound { IsSoundBook self.old → IsSoundBook self.new }
    {
        self.frontier.decide(&self.run, self.incumbent.cutoff)
    }
}
