ghost use Rattle.std.specs.Prelude.{◌≡◌, ◌≤◌, ◌<◌, ◌+◌, ◌^◌, ◌++◌, min, length, take, drop, IfOk};
ghost use Rattle.ug_image.specs.Images.{IsImage};
ghost use Rattle.ug_image.specs.Spelling.{spelled};

use crate::slots::pieces::Pieces;
use std::alloc::{AllocError, Global};
use ug_image::{Blocks, Image, length};

/// The body of a checkpoint: the length of an image in eight bytes, and the image.
#[derive(Drop)]
pub struct Body<'a> {
    // How many bytes the image has.
    count: u64,
    // How many bytes of that number are left.
    left: usize,
    blocks: Blocks<'a>,
    ghost within: { left ≤ 8 },
}

impl<'a> Body<'a> {
    ghost use Rattle.ug_checkpoint.specs.Bodies.{body_of};
    ghost use Rattle.ug_checkpoint.specs.Given.{rest_of};

    /// The whole body of an image.
    pub fn new(alloc: Global, image: &'a Image) -> Result<Body<'a>, AllocError>
        requires image { IsImage image.now }
        requires fits { length (spelled image.now) < 2 ^ 63 }
        ensures rest { IfOk result (λ body. rest_of body ≡ body_of image.now) }
        ensures fits { IfOk result (λ body. length (rest_of body) + 1 < 2 ^ 64) }
    {
        let blocks = Blocks::new(alloc, image)?;
        Ok(Body {
            count: length(image),
            left: 8,
            blocks,
        })
    }
}

impl Pieces for Body<'_> {
    ghost use Rattle.ug_checkpoint.specs.Given.{rest_of};

    ghost rest = { rest_of };

    fn next(&mut self, buffer: &mut [u8]) -> usize {
        let field = self.count.to_be_bytes();
        let n = fill(&field[8 - self.left..], buffer);
        self.left -= n;
        n + self.blocks.next(&mut buffer[n..])
    }
}

// Fills the buffer from its front with the bytes, all of it or as many as there are.
fn fill(bytes: &[u8], buffer: &mut [u8]) -> usize
    ensures count { result ≡ min (length buffer.new) (length bytes.now) }
    ensures bytes { take result buffer.new ≡ take result bytes.now }
{
    let n = buffer.len().min(bytes.len());
    buffer[..n].copy_from_slice(&bytes[..n]);
    n
}
