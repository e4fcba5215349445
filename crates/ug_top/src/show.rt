ghost use Rattle.std.specs.Prelude.{IfSome};
ghost use Rattle.ug_image.specs.Images.{IsImage};
ghost use Rattle.ug_top.specs.Outcomes.{TellsImage};
ghost use Rattle.ug_top.specs.Solved.{KeepsCovered};
ghost use Rattle.ug_top.specs.Ends.{AreShowLines, IsStored, status_of, text_of};
ghost use Rattle.ug_top.specs.Left.{IsPointFound, best_of};

use crate::ended::Ended;
use crate::outcome::tell_fault;
use crate::status::Status;
use std::alloc::{AllocError, Global};
use ug_checkpoint::{LoadError, load};
use ug_disk::Disk;
use ug_image::Image;
use ug_print::{checkpoint_lines, checkpoint_point};
use ug_restart::StartFault;

/// Reports the checkpoint that recovery finds, or why it finds none.
pub fn show<D: Disk>(alloc: Global, disk: &mut D) -> Ended
    ensures lines { AreShowLines (D.seen disk.old) (D.seen disk.new)
        (status_of result) (text_of result) }
    ensures stored { IsStored (KeepsCovered (D.seen disk.old) (D.seen disk.new))
        (D.seen disk.old) (D.seen disk.new) (status_of result) }
    ensures point { IfSome (best_of result) (IsPointFound (D.seen disk.old) (D.seen disk.new)) }
{
    match load(alloc, disk) {
        Ok(Some(found)) => {
            let ended = shown(alloc, &found.image);
            drop(found);
            ended
        }
        Ok(None) => tell_fault(alloc, &StartFault::NoCheckpoint),
        Err(LoadError::Memory) => Ended::Memory,
        Err(LoadError::Fault) => tell_fault(alloc, &StartFault::DiskFault),
        Err(LoadError::BadImage { slot, at }) => {
            tell_fault(alloc, &StartFault::BadImage { slot, at })
        }
    }
}

// Reports the image that was found.
fn shown(alloc: Global, image: &Image) -> Ended
    requires { IsImage image.now }
    ensures { TellsImage image.now result }
{
    match checkpoint_lines(alloc, image) {
        Ok(text) => Ended::Lines {
            status: Status::Answered,
            text,
            best: checkpoint_point(alloc, image).ok(),
        },
        Err(AllocError) => Ended::Memory,
    }
}
