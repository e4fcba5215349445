ghost use Rattle.std.specs.Prelude.{OnOk, OnErr};
ghost use Rattle.ug_io.specs.Outside.{IsCounted, Takes, TakesFront};

use ug_io::{Failed, Sink};

/// Writes all the bytes. After a failure a prefix of them is written.
#[tactic(auto, using(crate::proofs::Moved::went_more))]
pub fn write_all<K: Sink>(out: &mut K, bytes: &[u8]) -> Result<(), Failed>
    ensures all { OnOk result
        (Takes (K.seen out.old).written (K.seen out.new).written bytes.now) }
    ensures front { OnErr result
        (TakesFront (K.seen out.old).written (K.seen out.new).written bytes.now) }
    ensures cause { IsCounted result (K.seen out.old).faults (K.seen out.new).faults }
{
    let mut rest = bytes;
    while !rest.is_empty() {
        let n = out.write(rest)?;
        let (_, after) = rest.split_at(n);
        rest = after;
    }
    Ok(())
}
