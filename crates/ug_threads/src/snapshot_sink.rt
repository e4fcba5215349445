ghost use Rattle.std.specs.Prelude.{◌≡◌};
ghost use Rattle.ug_checkpoint.specs.Savers.{IsKept};
ghost use Rattle.ug_book.specs.Openings.{IsCoveredOpening};
ghost use Rattle.ug_restart.specs.Saves.{opening_of, saver_of};
ghost use Rattle.ug_restart.specs.Going.{GoesOn, time};
ghost use Rattle.ug_threads.specs.Listening.{nothing_heard, one_after_another, unheard, heard_both};

use crossbeam_channel::Receiver;
use std::alloc::Global;
use std::sync::Wait;
use ug_disk::Disk;
use ug_restart::Saves;
use ug_snapshot::Snapshot;

/// Takes the snapshots that workers send.
pub trait SnapshotSink {
    /// It can take one.
    ghost ready: { Self → Type 0 };

    /// What it becomes by any number of them.
    ghost moves: { Self → Self → Type 0 };

    ghost stays: { (x : Self) → moves x x };

    ghost goes_on: { (x y z : Self) → moves x y → moves y z → moves x z };

    fn take(&mut self, snapshot: Snapshot)
        requires { ready self.old }
        ensures ready { ready self.new }
        ensures moves { moves self.old self.new };
}

/// Receives until every sender is dropped.
pub fn listen<R: Wait, T: SnapshotSink + Drop>(
    rt: &R,
    mut sink: T,
    receiver: &Receiver<Snapshot>,
) -> T
    requires { T.ready sink }
    ensures ready { T.ready result }
    ensures moves { T.moves sink result }
{
    for _ in rt.forever() {
        match receiver.recv(rt) {
            Ok(snapshot) => sink.take(snapshot),
            Err(_) => break,
        }
    }
    sink
}

/// Drops each snapshot.
#[derive(Drop)]
pub struct Silent;

impl SnapshotSink for Silent {
    ghost ready = { λ x. Unit {0} };

    ghost moves = { λ x y. Unit {0} };

    ghost stays = { λ x. unheard };

    ghost goes_on = { λ x y z a b. heard_both };

    fn take(&mut self, snapshot: Snapshot) {
        drop(snapshot);
    }
}

/// Saves what is sent.
#[derive(Drop)]
pub struct Saving<'a, D> {
    pub alloc: Global,
    pub saves: Saves,
    pub disk: &'a mut D,
}

impl<'a, D: Disk> SnapshotSink for Saving<'a, D> {
    ghost ready = { λ x. IsKept (saver_of x.saves) (D.seen x.disk.now).told };

    ghost moves = { λ x y. (y.disk.ghost_name ≡ x.disk.ghost_name)
        × GoesOn (IsCoveredOpening (opening_of x.saves)) (Unit {0})
        (time x.saves (D.seen x.disk.now))
        (time y.saves (D.seen y.disk.now)) };

    ghost stays = { λ x. nothing_heard x.disk.ghost_name
        (time x.saves (D.seen x.disk.now)) };

    ghost goes_on = { λ x y z. one_after_another
        x.disk.ghost_name y.disk.ghost_name z.disk.ghost_name
        (time x.saves (D.seen x.disk.now))
        (time y.saves (D.seen y.disk.now))
        (time z.saves (D.seen z.disk.now)) };

    fn take(&mut self, snapshot: Snapshot) {
        self.saves.offer(self.alloc, self.disk, snapshot);
    }
}
