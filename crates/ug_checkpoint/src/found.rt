ghost use Rattle.std.specs.Prelude.{◌≡◌, Some};
ghost use Rattle.ug_checkpoint.specs.Recovery.{chosen};

use ug_disk::Slot;
use ug_image::Image;

/// What recovery finds: the image of the last checkpoint, and the slot that has it.
#[derive(Drop)]
pub struct Found {
    pub slot: Slot,
    pub image: Image,
}

/// Of the images of two slots the one with the larger sequence, on a tie that of slot 0.
pub fn greater(zero: Option<Image>, one: Option<Image>) -> Option<Found>
    ensures { result ≡ chosen zero one }
{
    match (zero, one) {
        (None, None) => None,
        (Some(image), None) => Some(Found {
            slot: Slot::Zero,
            image,
        }),
        (None, Some(image)) => Some(Found {
            slot: Slot::One,
            image,
        }),
        (Some(zero), Some(one)) => Some(greater_of(zero, one)),
    }
}

fn greater_of(zero: Image, one: Image) -> Found
    ensures { Some result ≡ chosen (Some zero) (Some one) }
{
    if zero.sequence < one.sequence {
        drop(zero);
        Found {
            slot: Slot::One,
            image: one,
        }
    } else {
        drop(one);
        Found {
            slot: Slot::Zero,
            image: zero,
        }
    }
}
