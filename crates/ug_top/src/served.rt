ghost use Rattle.std.specs.Prelude.{◌≡◌, [], true, None, IsSomeAnd};
ghost use Rattle.ug_serve.specs.Traces.{IsFresh};
ghost use Rattle.ug_top.specs.Ends.{AreWorkerLines, HasLinkFor, status_of, text_of};
ghost use Rattle.ug_top.specs.Left.{best_of};
ghost use Rattle.ug_top.specs.Outside.{seen_if};

use crate::ended::Ended;
use crate::status::Status;
use std::sync::Wait;
use std::thread::Threads;
use ug_io::Link;
use ug_restart::{Host, Observer};
use ug_serve::{Served, Service, serve};

/// Works for the coordinator at the other end of the link, until it orders the end. Nothing is
/// printed, since nobody reads what a child prints.
pub fn run_worker<R: Threads + Wait + Sync, O: Observer, L: Link + Drop>(
    host: &Host<'_, R, O>,
    link: &mut Option<L>,
) -> Ended
    requires { HasLinkFor true (seen_if L.seen link.old) }
    ensures lines { AreWorkerLines (seen_if L.seen link.new) (status_of result) (text_of result) }
    ensures best { best_of result ≡ None }
{
    let Some(own) = link.take() else {
        unreachable!()
    };
    let Service { link: own, end } = serve(host.rt, host.alloc, own);
    *link = Some(own);
    match end {
        Served::Ended => Ended::Quiet {
            status: Status::Answered,
        },
        Served::LinkFault => Ended::Quiet {
            status: Status::LinkFault,
        },
        Served::BadFrame { .. } => Ended::Quiet {
            status: Status::BadFrame,
        },
        Served::Memory => Ended::Quiet {
            status: Status::Memory,
        },
    }
}
