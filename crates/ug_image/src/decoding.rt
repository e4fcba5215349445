ghost use Rattle.std.specs.Prelude.{◌≡◌, Err, IfOk, IfErr, MatchResult};
ghost use Rattle.ug_image.specs.declared.image.Image.{Image};
ghost use Rattle.ug_image.specs.declared.error.ImageError.TheVariants.{Memory};
ghost use Rattle.ug_image.specs.Answers.{IsFirstBad, IsRefused};
ghost use Rattle.ug_image.specs.Reading.{image_at};
ghost use Rattle.ug_image.specs.Spelling.{Spell};

use crate::error::ImageError;
use crate::fields::whole_image;
use crate::image::Image;
use std::alloc::Global;
use ug_fields::Fault;

/// The image that the bytes spell, in version 1, 2 or 3. Bytes that spell none are refused with the
/// place of the first field that is cut short or breaks a rule.
pub fn decode(alloc: Global, bytes: &[u8]) -> Result<Image, ImageError>
    ensures read { IfOk result (Spell bytes.now) }
    ensures every { (image : Image) → Spell bytes.now image
        → MatchResult result (λ read. read ≡ image) (λ e. e ≡ Memory) }
    ensures refused { IfErr result (IsRefused bytes.now) }
{
    match whole_image(alloc, bytes) {
        Ok(image) => Ok(image),
        Err(Fault::Memory) => Err(ImageError::Memory),
        Err(Fault::Bad(left)) => Err(ImageError::BadAt {
            at: first_bad(bytes, left),
        }),
    }
}

// If the first bad field begins, from which on this many bytes are left.
fn first_bad(bytes: &[u8], left: usize) -> usize
    requires { image_at bytes.now ≡ Err left }
    ensures place { IsFirstBad bytes.now result }
    ensures none { (image : Image) → ¬ Spell bytes.now image }
{
    bytes.len() - left
}
