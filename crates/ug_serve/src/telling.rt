ghost use Rattle.std.specs.Prelude.{OnOk, OnErr};
ghost use Rattle.ug_io.specs.Outside.{IsCounted};
ghost use Rattle.ug_serve.specs.Tellings.{HasToldAll, HasToldFront};

use ug_io::{Failed, Link};

/// Sends all the bytes. After a failure a prefix of them is sent.
#[tactic(auto, using(crate::proofs::Tellings::went_more))]
pub fn tell_all<L: Link>(link: &mut L, bytes: &[u8]) -> Result<(), Failed>
    ensures all { OnOk result (HasToldAll (L.seen link.old) (L.seen link.new) bytes.now) }
    ensures front { OnErr result (HasToldFront (L.seen link.old) (L.seen link.new) bytes.now) }
    ensures cause { IsCounted result (L.seen link.old).faults (L.seen link.new).faults }
{
    let mut rest = bytes;
    while !rest.is_empty() {
        let n = link.write(rest)?;
        let (_, after) = rest.split_at(n);
        rest = after;
    }
    Ok(())
}
