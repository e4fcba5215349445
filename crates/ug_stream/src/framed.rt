ghost use Rattle.std.specs.Prelude.{IfOk};
ghost use Rattle.ug_frames.specs.Fronts.{IsDecoded};
ghost use Rattle.ug_frames.specs.OrderFrames as orders;
ghost use Rattle.ug_frames.specs.ReportFrames as reports;

use std::alloc::{AllocError, Global};
use ug_frames::{Decoded, Order, Report, decode_order, decode_report};

/// What comes in frames.
pub trait Framed: Sized {
    ghost use Rattle.std.specs.Prelude.{ℕ, List};

    /// It is such as comes in a frame.
    ghost carried: { Self → Type 0 };

    /// The bytes of its frame.
    ghost spelled: { Self → List ℕ };

    /// The result of reading the front of the bytes.
    fn decode(alloc: Global, bytes: &[u8]) -> Result<Decoded<Self>, AllocError>
        ensures { IfOk result (IsDecoded carried spelled bytes.now) };
}

impl Framed for Order {
    ghost carried = { orders.IsCarried };

    ghost spelled = { orders.spelled };

    fn decode(alloc: Global, bytes: &[u8]) -> Result<Decoded<Order>, AllocError> {
        decode_order(alloc, bytes)
    }
}

impl Framed for Report {
    ghost carried = { reports.IsCarried };

    ghost spelled = { reports.spelled };

    fn decode(alloc: Global, bytes: &[u8]) -> Result<Decoded<Report>, AllocError> {
        decode_report(alloc, bytes)
    }
}
