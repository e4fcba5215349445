ghost use Rattle.std.specs.Prelude.{◌≡◌, ◌≤◌, ◌<◌, ◌+◌, ◌-◌, ◌++◌, [], min, take, drop, length, IfOk};
ghost use Rattle.ug_image.specs.Images.{IsImage};
ghost use Rattle.ug_image.specs.Spelling.{spelled};

use crate::advancing::advance;
use crate::image::Image;
use crate::stage::Stage;
use std::alloc::{AllocError, Global};
use std::marker::Model;
use ug_fields::Line;

/// The bytes of an image that are still to come. Contracts see them as a list.
#[derive(Drop)]
pub struct Blocks<'a> {
    image: &'a Image,
    // What comes after the line.
    stage: Stage,
    line: Line,
    // How many bytes of the line were given.
    given: usize,
}

impl<'a> Model for Blocks<'a> {
    ghost use Rattle.std.specs.Prelude.{List, ℕ, ◌++◌, ◌≤◌, drop, length};
    ghost use Rattle.ug_image.specs.Images.{IsImage};
    ghost use Rattle.ug_image.specs.Rests.{rest_at};

    ghost Value = { List ℕ };

    ghost view = { λ b. drop b.given b.line ++ rest_at b.image.now b.stage };

    ghost invariant = { λ b. IsImage b.image.now × (b.given ≤ length b.line) };
}

impl<'a> Blocks<'a> {
    /// All bytes of the image's spelling. It takes memory for one line.
    pub fn new(alloc: Global, image: &'a Image) -> Result<Blocks<'a>, AllocError>
        requires { IsImage image.now }
        ensures { IfOk result (λ blocks. blocks ≡ spelled image.now) }
    {
        let line = Line::new(alloc)?;
        Ok(Blocks {
            image,
            stage: Stage::Front,
            line,
            given: 0,
        })
    }

    /// Fills the buffer from its front with the next bytes, the whole buffer or all that are left,
    /// and says how many. It takes no memory.
    pub fn next(&mut self, buffer: &mut [u8]) -> usize
        ensures count { result ≡ min (length buffer.old) (length self.old) }
        ensures bytes { take result buffer.new ≡ take result self.old }
        ensures rest { self.new ≡ drop result self.old }
        ensures same { length buffer.new ≡ length buffer.old }
    {
        let mut n = 0;
        while n < buffer.len() {
            let given = self.give(buffer, n);
            if given == 0 {
                return n;
            }
            n += given;
        }
        n
    }

    // Puts some of the next bytes into the buffer from a place on, and says how many: none at the
    // end alone.
    fn give(&mut self, buffer: &mut [u8], at: usize) -> usize
        requires { at < length buffer.old }
        ensures within { at + result ≤ length buffer.old }
        ensures bytes { take (at + result) buffer.new ≡ take at buffer.old ++ take result self.old }
        ensures rest { self.new ≡ drop result self.old }
        ensures enough { result ≤ length self.old }
        ensures end { result ≡ 0 → self.old ≡ [] }
        ensures same { length buffer.new ≡ length buffer.old }
    {
        if self.given == self.line.as_slice().len() {
            self.stage = advance(&mut self.line, self.image, self.stage);
            self.given = 0;
        }
        let n = copy(self.line.as_slice(), self.given, buffer, at);
        self.given += n;
        n
    }
}

// Copies as many of the bytes from one place on as there is room for in the buffer from another.
fn copy(bytes: &[u8], from: usize, buffer: &mut [u8], at: usize) -> usize
    requires from { from ≤ length bytes.now }
    requires at { at ≤ length buffer.old }
    ensures count { result ≡ min (length bytes.now - from) (length buffer.old - at) }
    ensures bytes { buffer.new ≡ take at buffer.old ++ (take result (drop from bytes.now)
        ++ drop (at + result) buffer.old) }
{
    let rest = &bytes[from..];
    let n = rest.len().min(buffer.len() - at);
    buffer[at..at + n].copy_from_slice(&rest[..n]);
    n
}
