use crate::expect::same;
use crate::threads::holding::{Coming, Hold, HoldingObserver};
use crate::threads::yielding::YieldingObserver;
use ug_restart::{Moment, Observer, Unobserved};

// Acts once a rank has reached a moment this many times.
fn coming(rank: u32, moment: Moment, number: u64) -> Coming {
    Coming {
        rank,
        moment,
        number,
    }
}

/// Rank 1 asks only once rank 0 asks again, and rank 0 only once rank 1 was answered.
pub fn each_waits() -> [Hold; 2] {
    let turns = 1_000_000_000;
    let first = Hold {
        at: coming(1, Moment::Asking, 1),
        until: coming(0, Moment::Asking, 2),
        turns,
    };
    let second = Hold {
        at: coming(0, Moment::Asking, 2),
        until: coming(1, Moment::Answered, 1),
        turns,
    };
    [first, second]
}

/// As `each_waits`; and rank 0 calls for the twelfth time only once rank 1 has asked again, by when
/// rank 0 has reported often enough that it has nodes to hand.
pub fn one_asks_again() -> [Hold; 3] {
    let [first, second] = each_waits();
    let third = Hold {
        at: coming(0, Moment::Asking, 12),
        until: coming(1, Moment::Answered, 2),
        turns: second.turns,
    };
    [first, second, third]
}

/// In a race of two, rank 0 asks first, and rank 1 has its task before rank 0 reports its first
/// point, but begins after that report. The next report is rank 1's.
pub fn second_begins_late() -> [Hold; 3] {
    let turns = 1_000_000_000;
    let first = Hold {
        at: coming(1, Moment::Asking, 1),
        until: coming(0, Moment::Answered, 1),
        turns,
    };
    let second = Hold {
        at: coming(1, Moment::Answered, 1),
        until: coming(0, Moment::Answered, 3),
        turns,
    };
    let third = Hold {
        at: coming(0, Moment::Asking, 4),
        until: coming(1, Moment::Answered, 2),
        turns,
    };
    [first, second, third]
}

fn pass_by<O: Observer>(observer: &O, rank: u32, times: u32) {
    for _ in 0..times {
        observer.pass(rank, Moment::Asking);
        observer.pass(rank, Moment::Answered);
    }
}

#[test]
fn rank_that_waits_for_none_goes_on(rt: HostRuntime) {
    let hold = Hold {
        at: coming(0, Moment::Answered, 1),
        until: coming(1, Moment::Asking, 1),
        turns: 100,
    };
    let observer = HoldingObserver::new(rt.alloc(), 2, &[hold]).expect(&rt, "memory");
    pass_by(&observer, 0, 2);
    pass_by(&observer, 2, 1);
    same(&rt, &observer.missed(), &1);
    drop(observer);
    pass_by(&Unobserved, 0, 1);
    pass_by(&YieldingObserver::new(7), 0, 9);
}
