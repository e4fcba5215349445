ghost use Rattle.std.specs.Prelude.{◌≡◌, IfOk, OnErr};
ghost use Rattle.ug_frames.specs.declared.order.Order.{Order};
ghost use Rattle.ug_frames.specs.declared.report.Report.{Report};
ghost use Rattle.ug_frames.specs.declared.decoded.Decoded.{Decoded};
ghost use Rattle.ug_frames.specs.Fronts.{IsDecoded, IsThere};
ghost use Rattle.ug_frames.specs.Behind.{whole_of};
ghost use Rattle.ug_frames.specs.OrderFrames.{IsCarried, spelled};
ghost use Rattle.ug_frames.specs.ReportFrames.{IsCarried as IsCarriedReport, spelled as spelled_report};

use crate::decoded::Decoded;
use crate::front::{Front, front_of};
use crate::order::Order;
use crate::reading::orders::order_in;
use crate::reading::reports::report_in;
use crate::report::Report;
use std::alloc::{AllocError, Global};
use ug_fields::Fault;

// What was read of a frame of this many bytes.
fn whole<M>(read: Result<M, Fault>, used: usize) -> Result<Decoded<M>, AllocError>
    ensures { result ≡ whole_of read used }
{
    match read {
        Ok(message) => Ok(Decoded::Whole { message, used }),
        Err(Fault::Memory) => Err(AllocError),
        Err(Fault::Bad(_)) => Ok(Decoded::Bad),
    }
}

/// Returns the order at the front of the bytes. Fails only if memory runs out for one there.
pub fn decode_order(alloc: Global, bytes: &[u8]) -> Result<Decoded<Order>, AllocError>
    // The answer is right, and no other is.
    ensures read { IfOk result (IsDecoded IsCarried spelled bytes.now) }
    ensures only { (other : Decoded Order) → IsDecoded IsCarried spelled bytes.now other
        → IfOk result (λ read. read ≡ other) }
    ensures err { OnErr result (IsThere bytes.now) }
{
    match front_of(bytes) {
        Front::CutShort => Ok(Decoded::NeedMore),
        Front::Bad => Ok(Decoded::Bad),
        Front::There(frame) => whole(order_in(alloc, frame), 4 + frame.len()),
    }
}

/// Returns the report at the front of the bytes. Fails only if memory runs out for one there.
pub fn decode_report(alloc: Global, bytes: &[u8]) -> Result<Decoded<Report>, AllocError>
    // The answer is right, and no other is.
    ensures read { IfOk result (IsDecoded IsCarriedReport spelled_report bytes.now) }
    ensures only { (other : Decoded Report)
        → IsDecoded IsCarriedReport spelled_report bytes.now other
        → IfOk result (λ read. read ≡ other) }
    ensures err { OnErr result (IsThere bytes.now) }
{
    match front_of(bytes) {
        Front::CutShort => Ok(Decoded::NeedMore),
        Front::Bad => Ok(Decoded::Bad),
        Front::There(frame) => whole(report_in(alloc, frame), 4 + frame.len()),
    }
}
