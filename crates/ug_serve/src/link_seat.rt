//! A worker's seat whose coordinator is at the other end of a link.

ghost use Rattle.std.specs.Prelude.{◌≡◌, ◌<◌, ◌*◌, ◌^◌, ◌≤◌, [], true, false, None, Some, length, unsigned_abs, IfOk, MatchOption, MatchResult};
ghost use Rattle.ug_problem.specs.Better.{IsGap, IsSmallCutoff};
ghost use Rattle.ug_problem.specs.Instances.{root_of};
ghost use Rattle.ug_nodes.specs.Changes.{IsAreaRefused};
ghost use Rattle.ug_base.specs.Tasks.{TaskState, lesser_of};
ghost use Rattle.ug_frames.specs.declared.order.Order.TheVariants.{Work};
ghost use Rattle.ug_worker.specs.declared.round_count.RoundCount.{RoundCount};
ghost use Rattle.ug_worker.specs.Engagements.{Engaged, HasTaken, IsReplied, lowered};
ghost use Rattle.ug_serve.specs.Seats.{IsGoing, IsObeyed, IsOrdered, IsOver, IsSeated, IsTaskOf, basis_of};
ghost use Rattle.ug_serve.specs.Actions.{task_of};
ghost use Rattle.ug_rows.specs.Boxes.{IsBelow};

use crate::kept::Kept;
use crate::wire::Wire;
use std::alloc::{AllocError, Global};
use ug_base::Task;
use ug_branch::Params;
use ug_frames::{Ending, Order, Report};
use ug_io::Link;
use ug_nodes::{AreaError, Changes, Ticket, area_of, changes_of};
use ug_rows::{IntBox, Point};
use ug_worker::{Reply, Seat, Took, Untaken};

/// A seat at a worker's end of a link.
#[derive(Drop)]
pub struct LinkSeat<L> {
    pub alloc: Global,
    pub kept: Kept,
    pub wire: Wire<L>,
}

impl<L: Link + Drop> LinkSeat<L> {
    ghost use Rattle.ug_frames.specs.declared.order.Order.{Order};
    ghost use Rattle.ug_serve.specs.SeatViews.{seat_seen};

    // No order is there: more may come, or the service has ended.
    fn idle(&self) -> Took
        ensures { (round_count : RoundCount)
            → IsSeated (seat_seen L.seen self.now.wire self.now.kept) round_count None
            → HasTaken (IsSeated (seat_seen L.seen self.now.wire self.now.kept)) round_count
            (IsOver (seat_seen L.seen self.now.wire self.now.kept)) result }
    {
        match self.wire.end {
            None => Took::Wait,
            Some(_) => Took::Over,
        }
    }

    // Does as is ordered where there is no task: takes a task, or ends, or continues.
    fn receive(&mut self, order: Order) -> Option<Took>
        requires { (round_count : RoundCount)
            × IsOrdered (seat_seen L.seen self.old.wire self.old.kept) round_count None order }
        ensures { (round_count : RoundCount)
            → IsOrdered (seat_seen L.seen self.old.wire self.old.kept) round_count None order
            → MatchOption result
            (IsSeated (seat_seen L.seen self.new.wire self.new.kept) round_count None)
            (HasTaken (IsSeated (seat_seen L.seen self.new.wire self.new.kept)) round_count
            (IsOver (seat_seen L.seen self.new.wire self.new.kept))) }
    {
        match order {
            Order::Work {
                ticket,
                params,
                race,
                cutoff,
                changes,
            } => Some(self.begin(ticket, params, race, cutoff, &changes)),
            Order::Setup { .. } => {
                self.wire.refuse();
                Some(Took::Over)
            }
            Order::End => {
                self.wire.finish();
                Some(Took::Over)
            }
            Order::Incumbent { .. } => None,
            Order::CollectIn { .. } => None,
            Order::CollectOut { .. } => None,
            Order::Winner { .. } => None,
            Order::Stop { .. } => None,
        }
    }

    // Begins a task. An order of a box that is not below the root is refused.
    fn begin(
        &mut self,
        ticket: Ticket,
        params: Params,
        race: bool,
        cutoff: Option<i128>,
        changes: &Changes,
    ) -> Took
        requires { (round_count : RoundCount)
            × IsOrdered (seat_seen L.seen self.old.wire self.old.kept) round_count None
            (Work ticket params race cutoff changes.now) }
        ensures { (round_count : RoundCount)
            → IsOrdered (seat_seen L.seen self.old.wire self.old.kept) round_count None
            (Work ticket params race cutoff changes.now)
            → HasTaken (IsSeated (seat_seen L.seen self.new.wire self.new.kept)) round_count
            (IsOver (seat_seen L.seen self.new.wire self.new.kept)) result }
    {
        match self.task(ticket, params, cutoff, changes) {
            Ok(task) => {
                self.kept.ticket = ticket;
                self.kept.racing = race;
                self.kept.asked = 0;
                Took::Work(task)
            }
            Err(AreaError::Outside { .. }) => {
                self.wire.refuse();
                Took::Over
            }
            Err(AreaError::Memory) => {
                self.wire.want();
                Took::Over
            }
        }
    }

    // The task of an order of work.
    fn task(
        &self,
        ticket: Ticket,
        params: Params,
        cutoff: Option<i128>,
        changes: &Changes,
    ) -> Result<Task, AreaError>
        requires cutoff { IsSmallCutoff cutoff }
        requires gap { IsGap self.now.kept.gap }
        ensures { MatchResult result
            (IsTaskOf self.now.kept ticket params cutoff changes.now)
            (IsAreaRefused (root_of self.now.kept.problem) changes.now) }
    {
        let problem = self.kept.problem.problem();
        let area = match area_of(self.alloc, problem.root(), changes) {
            Ok(area) => area,
            Err(error) => return Err(error),
        };
        match self.made(ticket, params, cutoff, area) {
            Ok(task) => Ok(task),
            Err(_) => Err(AreaError::Memory),
        }
    }

    // The task that searches the box.
    fn made(
        &self,
        ticket: Ticket,
        params: Params,
        cutoff: Option<i128>,
        area: IntBox,
    ) -> Result<Task, AllocError>
        requires below { IsBelow area (root_of self.now.kept.problem) }
        requires cutoff { IsSmallCutoff cutoff }
        requires gap { IsGap self.now.kept.gap }
        ensures { IfOk result (λ task.
            task ≡ task_of (basis_of self.now.kept) ticket params cutoff area) }
    {
        match self.kept.problem.share() {
            Ok(problem) => Task::new(
                self.alloc,
                problem,
                ticket,
                params,
                area,
                cutoff,
                self.kept.gap,
            ),
            Err(error) => {
                drop(area);
                Err(error)
            }
        }
    }

    // Obeys an order between two rounds, which may lower the cutoff. False where the task is
    // dropped.
    fn obey(&mut self, order: Order, cutoff: &mut Option<i128>) -> bool
        requires { (round_count : RoundCount) × (e : Engaged) × (e.made ≡ 0)
            × IsOrdered (seat_seen L.seen self.old.wire self.old.kept) round_count (Some e) order }
        ensures obeyed { (round_count : RoundCount) (e : Engaged) (task : TaskState) → e.made ≡ 0
            → IsOrdered (seat_seen L.seen self.old.wire self.old.kept) round_count (Some e) order
            → e.task ≡ lowered cutoff.old task
            → IsObeyed result
            (seat_seen L.seen self.new.wire self.new.kept) round_count task cutoff.new }
        ensures small { IsSmallCutoff cutoff.old → IsSmallCutoff cutoff.new }
    {
        match order {
            Order::Incumbent { cutoff: told } => {
                *cutoff = Some(lower_of(*cutoff, told));
                true
            }
            Order::CollectIn { ticket, count } => {
                self.kept.ask(ticket, count);
                true
            }
            Order::CollectOut { ticket } => {
                self.kept.ask(ticket, 0);
                true
            }
            Order::Winner { ticket } => {
                self.kept.win(ticket);
                true
            }
            Order::Stop { ticket } => !self.kept.is_its(ticket),
            Order::End => {
                self.wire.finish();
                false
            }
            Order::Setup { .. } => {
                self.wire.refuse();
                false
            }
            Order::Work { .. } => {
                self.wire.refuse();
                false
            }
        }
    }

    // The task continues under the cutoff, unless the service has ended.
    fn reply(&self, cutoff: Option<i128>) -> Reply
        ensures small { result.cutoff ≡ cutoff }
        ensures replied { (round_count : RoundCount) (task : TaskState)
            → IsGoing (seat_seen L.seen self.now.wire self.now.kept) round_count task cutoff
            → IsReplied (IsSeated
            (seat_seen L.seen self.now.wire self.now.kept) round_count) task result }
    {
        let collect = self.kept.asked;
        let racing = self.kept.racing;
        match self.wire.end {
            None => Reply {
                cutoff,
                collect,
                stop: false,
                racing,
            },
            Some(_) => Reply {
                cutoff,
                collect,
                stop: true,
                racing,
            },
        }
    }
}

impl<L: Link + Drop> Seat for LinkSeat<L> {
    ghost use Rattle.ug_serve.specs.Seats.{IsOver, IsSeated};
    ghost use Rattle.ug_serve.specs.SeatViews.{seat_seen};

    ghost at = { λ seat round_count some. IsSeated
        (seat_seen L.seen seat.wire seat.kept) round_count some };

    ghost over = { λ seat. IsOver (seat_seen L.seen seat.wire seat.kept) };

    // The contract of the seat names nothing outside it.
    type Home = u64;

    ghost home = { λ seat. 0 };

    fn take(&mut self) -> Result<Took, Untaken> {
        for _ in 0..u64::MAX {
            let Some(order) = self.wire.next() else {
                return Ok(self.idle());
            };
            if let Some(took) = self.receive(order) {
                return Ok(took);
            }
        }
        Ok(Took::Wait)
    }

    fn look(&mut self) -> Reply {
        let mut cutoff = None;
        for _ in 0..u64::MAX {
            let Some(order) = self.wire.next() else {
                return self.reply(cutoff);
            };
            if !self.obey(order, &mut cutoff) {
                return Reply {
                    cutoff,
                    collect: 0,
                    stop: true,
                    racing: false,
                };
            }
        }
        self.reply(cutoff)
    }

    // What others found is ordered, and read with the other orders.
    fn cutoff(&mut self) -> Option<i128> {
        None
    }

    fn solution(&mut self, point: Point) -> bool {
        self.wire.tell(Report::Solution {
            ticket: self.kept.ticket,
            point,
        });
        true
    }

    fn hand(&mut self, number: u64, area: &IntBox) -> Result<(), AllocError> {
        let root = self.kept.problem.problem().root();
        let Ok(changes) = changes_of(self.alloc, root, area) else {
            self.wire.want();
            return Err(AllocError);
        };
        self.wire.tell(Report::Hand {
            ticket: self.kept.ticket,
            number,
            changes,
        });
        self.kept.asked = self.kept.asked.saturating_sub(1);
        Ok(())
    }

    fn state(&mut self, left: u64, floor: i128) -> Result<Reply, AllocError> {
        self.wire.tell(Report::State {
            ticket: self.kept.ticket,
            open: left,
            floor,
        });
        Ok(self.look())
    }

    fn done(&mut self, task: Task) {
        let count = task.handed().len() as u64;
        let cutoff = task.cutoff();
        drop(task);
        self.wire.tell(Report::Done {
            ticket: self.kept.ticket,
            cutoff,
            count,
            end: Ending::Plain,
        });
    }

    fn give_up(&mut self, task: Task) {
        drop(task);
        self.wire.want();
    }

    fn leave(&mut self) {
        self.wire.want();
    }

    // Whether the service has ended is found by the next `take`.
    fn rest(&mut self) -> bool {
        self.wire.goes_on(true);
        true
    }
}

// The smaller of a cutoff, if there is one, and another.
fn lower_of(cutoff: Option<i128>, told: i128) -> i128
    ensures { result ≡ lesser_of cutoff told }
{
    match cutoff {
        Some(kept) if kept < told => kept,
        _ => told,
    }
}
