ghost use Rattle.std.specs.Prelude.{◌≡◌, IfOk};
ghost use Rattle.ug_image.specs.Images.{IsImage};
ghost use Rattle.ug_image.specs.Spelling.{spelled};

use crate::blocks::Blocks;
use crate::counting::length;
use crate::image::Image;
use std::alloc::{AllocError, Global};
use ug_lists::Bytes;

/// The bytes of the image's spelling, in one vector.
pub fn encode(alloc: Global, image: &Image) -> Result<Bytes, AllocError>
    requires { IsImage image.now }
    ensures { IfOk result (λ bytes. bytes ≡ spelled image.now) }
{
    let mut bytes = vec![in alloc; 0u8; length(image) as usize]?;
    let mut blocks = Blocks::new(alloc, image)?;
    blocks.next(&mut bytes);
    Ok(Bytes::from_vec(bytes))
}
