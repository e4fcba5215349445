ghost use Rattle.std.specs.Prelude.{◌≡◌, ◌≤◌, ◌<◌, ◌++◌, [], ◌∷◌, List, MatchBool, IfOk, OnErr};
ghost use Rattle.ug_rules.specs.declared.member.Member.{Member};
ghost use Rattle.ug_rules.specs.declared.demand.Wanted.{Wanted};
ghost use Rattle.ug_rules.specs.Asking.{CanBeAsked, IsAskedBefore, IsAskedFirst, IsAskedFirstIfAny, IsAnyCollecting, IsNoneCollecting, AreRising, collecting_ranks};
ghost use Rattle.ug_rules.specs.Wants.{IsFull, IsWanted, HasRisingRanks};

use std::alloc::{AllocError, Global};
use ug_lists::Items;
use ug_rules::{Member, Wanted};

/// Returns what the pool needs with `len` nodes: more if there are fewer than `low`, no more if
/// there are at least `high`. The members are the ranks with an assignment.
#[tactic(auto, using(crate::proofs::Once::wanted_once))]
pub fn wanted(
    alloc: Global,
    len: u64,
    low: u64,
    high: u64,
    members: &[Member],
) -> Result<Wanted, AllocError>
    requires { low ≤ high }
    ensures wanted { IfOk result (IsWanted len low high members.now) }
    ensures only { (other : Wanted) → IsWanted len low high members.now other
        → IfOk result (λ made. made ≡ other) }
    ensures rising { AreRising members.now → IfOk result HasRisingRanks }
    // Only the list of ranks to stop takes memory.
    ensures memory { OnErr result (IsFull len high members.now) }
{
    if len < low {
        return Ok(ask(len, low, high, members));
    }
    if !is_full(len, high, members) {
        return Ok(Wanted::Nothing);
    }
    let ranks = collecting(alloc, members)?;
    Ok(Wanted::Enough(Items::from_vec(ranks)))
}

// Returns what the pool needs below the low watermark.
fn ask(len: u64, low: u64, high: u64, members: &[Member]) -> Wanted
    requires few { len < low }
    requires marks { low ≤ high }
    ensures wanted { IsWanted len low high members.now result }
    ensures rising { HasRisingRanks result }
{
    match first(members) {
        Some(member) => Wanted::Ask {
            rank: member.rank,
            count: high - len,
        },
        None => Wanted::Nothing,
    }
}

// The member that is asked first.
fn first(members: &[Member]) -> Option<Member>
    ensures { IsAskedFirstIfAny members.now result }
{
    let mut best = None;
    for member in members {
        best = first_of(best, *member);
    }
    best
}

// The first of some members and one more.
#[tactic(auto, using(crate::proofs::AskedFirst::first_stays_idle))]
fn first_of(best: Option<Member>, member: Member) -> Option<Member>
    ensures { (members : List Member) → IsAskedFirstIfAny members best
        → IsAskedFirstIfAny (members ++ member ∷ []) result }
{
    if !can_be_asked(member) {
        return best;
    }
    match best {
        Some(before) => Some(first_of_two(before, member)),
        None => Some(member),
    }
}

// The first of some members and one more that can be asked.
#[tactic(auto, using(crate::proofs::AskedFirst::first_stays_behind))]
fn first_of_two(before: Member, member: Member) -> Member
    ensures { (members : List Member) → IsAskedFirst members before → CanBeAsked member
        → IsAskedFirst (members ++ member ∷ []) result }
{
    if is_ahead(member, before) {
        member
    } else {
        before
    }
}

fn can_be_asked(member: Member) -> bool
    ensures { MatchBool result (CanBeAsked member) (CanBeAsked member → ⊥) }
{
    !member.collecting && member.open >= 2
}

fn is_ahead(one: Member, other: Member) -> bool
    ensures { MatchBool result (IsAskedBefore one other) (IsAskedBefore one other → ⊥) }
{
    if one.floor == other.floor {
        return one.rank < other.rank;
    }
    one.floor < other.floor
}

// Must the ranks stop that are collecting?
fn is_full(len: u64, high: u64, members: &[Member]) -> bool
    ensures { MatchBool result (IsFull len high members.now)
        (high ≤ len → IsNoneCollecting members.now) }
{
    len >= high && is_any_collecting(members)
}

fn is_any_collecting(members: &[Member]) -> bool
    ensures { MatchBool result (IsAnyCollecting members.now) (IsNoneCollecting members.now) }
{
    members.iter().any(|member| member.collecting)
}

// The ranks that are collecting.
fn collecting(alloc: Global, members: &[Member]) -> Result<Vec<u32>, AllocError>
    ensures { IfOk result (λ ranks. ranks.items ≡ collecting_ranks members.now) }
{
    members
        .iter()
        .filter(|member| member.collecting)
        .map(|member| member.rank)
        .collect(alloc)
}
