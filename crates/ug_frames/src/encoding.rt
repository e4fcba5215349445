ghost use Rattle.std.specs.Prelude.{◌≡◌, ◌++◌, OnOk, OnErr};
ghost use Rattle.ug_frames.specs.Orders.{IsOrder};
ghost use Rattle.ug_frames.specs.Reports.{IsReport};
ghost use Rattle.ug_frames.specs.OrderFrames.{IsCarried, spelled};
ghost use Rattle.ug_frames.specs.ReportFrames.{IsCarried as IsCarriedReport, spelled as spelled_report};

use crate::fits::{order_fits, report_fits};
use crate::order::Order;
use crate::report::Report;
use crate::writing::{orders, reports};
use std::alloc::AllocError;
use ug_fields::{put_byte, put_count};

/// Puts the order's frame at the end of the buffer. Without memory for it the buffer is as it was.
/// The order is one that comes in a frame, so that it is read back.
#[tactic(auto, unfolding(crate::specs::Spelling::framed))]
pub fn encode_order(buffer: &mut Vec<u8>, order: &Order) -> Result<(), AllocError>
    requires { IsOrder order.now }
    ensures ok { OnOk result (buffer.new.items ≡ buffer.old.items ++ spelled order.now) }
    ensures err { OnErr result (buffer.new.items ≡ buffer.old.items) }
    ensures carried { IsCarried order.now }
{
    order_fits(order);
    let long = orders::fields_length(order) + 1;
    buffer.reserve(4 + long as usize)?;
    put_count(buffer, long);
    put_byte(buffer, orders::tag(order));
    orders::put_fields(buffer, order);
    Ok(())
}

/// Puts the report's frame at the end of the buffer. Without memory for it the buffer is as it was.
/// The report is one that comes in a frame, so that it is read back.
#[tactic(auto, unfolding(crate::specs::Spelling::framed))]
pub fn encode_report(buffer: &mut Vec<u8>, report: &Report) -> Result<(), AllocError>
    requires { IsReport report.now }
    ensures ok { OnOk result (buffer.new.items ≡ buffer.old.items ++ spelled_report report.now) }
    ensures err { OnErr result (buffer.new.items ≡ buffer.old.items) }
    ensures carried { IsCarriedReport report.now }
{
    report_fits(report);
    let long = reports::fields_length(report) + 1;
    buffer.reserve(4 + long as usize)?;
    put_count(buffer, long);
    put_byte(buffer, reports::tag(report));
    reports::put_fields(buffer, report);
    Ok(())
}
