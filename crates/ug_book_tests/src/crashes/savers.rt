//! Savers for tests.

ghost use Rattle.std.specs.Prelude.{IfOk};
ghost use Rattle.ug_image.specs.Images.{IsImage};
ghost use Rattle.ug_checkpoint.specs.Savers.{IsKept};

use std::alloc::Global;
use ug_checkpoint::{LoadError, SaveError, Saver, load};
use ug_disk::Disk;
use ug_image::{Image, decode, length};

/// A saver of the slots as a load leaves them.
pub fn opened<D: Disk>(alloc: Global, disk: &mut D) -> Result<Saver, LoadError>
    ensures { IfOk result (λ saver. IsKept saver (D.seen disk.new).told) }
{
    let found = load(alloc, disk)?;
    let saver = Saver::new(found.as_ref());
    drop(found);
    Ok(saver)
}

/// How a save of an image ends, if its sequence is above the last one.
pub fn save<D: Disk>(
    alloc: Global,
    disk: &mut D,
    saver: &mut Saver,
    image: &Image,
) -> Result<(), SaveError>
    requires kept { IsKept saver.old (D.seen disk.old).told }
    requires image { IsImage image.now }
    ensures { IsKept saver.new (D.seen disk.new).told }
{
    if saver.sequence() < image.sequence && length(image) < 1 << 63 {
        return saver.save(alloc, disk, image);
    }
    Err(SaveError::Memory)
}

/// The same of bytes, if they spell an image.
pub fn save_bytes<D: Disk>(
    alloc: Global,
    disk: &mut D,
    saver: &mut Saver,
    bytes: &[u8],
) -> Result<(), SaveError>
    requires { IsKept saver.old (D.seen disk.old).told }
    ensures { IsKept saver.new (D.seen disk.new).told }
{
    let Ok(image) = decode(alloc, bytes) else {
        return Err(SaveError::Memory);
    };
    let saved = save(alloc, disk, saver, &image);
    drop(image);
    saved
}
