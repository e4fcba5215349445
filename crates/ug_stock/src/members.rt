ghost use Rattle.std.specs.Prelude.{◌≡◌, ◌<◌, ◌++◌, ◌^◌, IfOk, OnOk, length};
ghost use Rattle.ug_rules.specs.Ranks.{member_at, members_in};

use std::alloc::{AllocError, Global};
use ug_ranks::{Ranks, State};
use ug_rules::Member;

/// The ranks that work, with their last reports, rising.
pub fn members_of(alloc: Global, ranks: &Ranks) -> Result<Vec<Member>, AllocError>
    ensures members { IfOk result (λ members. members.items ≡ members_in ranks.now) }
    ensures count { length ranks.now < 2 ^ 32 }
{
    let count = ranks.as_slice().len();
    let mut members = Vec::with_capacity(alloc, count)?;
    for rank in 0..count as u32 {
        add_member(&mut members, rank, ranks.state(rank))?;
    }
    Ok(members)
}

// The rank is one of the members, if it works.
fn add_member(members: &mut Vec<Member>, rank: u32, state: &State) -> Result<(), AllocError>
    ensures { OnOk result (members.new.items ≡ members.old.items ++ member_at rank state.now) }
{
    if let State::Active(work) = state {
        members.push(Member {
            rank,
            open: work.open,
            floor: work.reported,
            collecting: work.asked != 0,
        })?;
    }
    Ok(())
}
