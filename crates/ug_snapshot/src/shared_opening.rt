ghost use Rattle.std.specs.Prelude.{◌≡◌, IfOk};

use std::alloc::{AllocError, Global};
use std::marker::Model;
use std::sync::Arc;
use ug_book::Opening;

/// What a run began with, in one place in memory, so that each snapshot holds it without a copy.
#[derive(Drop)]
pub struct SharedOpening {
    place: Arc<Opening>,
}

impl Model for SharedOpening {
    ghost use Rattle.std.specs.Arc.{arc_value};
    ghost use Rattle.ug_book.specs.declared.opening.Opening.{Opening};

    ghost Value = { Opening };

    ghost view = { λ began. arc_value began.place };
}

impl SharedOpening {
    /// What a run begins with. After an error the opening is dropped.
    pub fn new(alloc: Global, opening: Opening) -> Result<SharedOpening, AllocError>
        ensures { IfOk result (λ began. began ≡ opening) }
    {
        let place = Arc::new(alloc, opening)?;
        Ok(SharedOpening { place })
    }

    /// The opening. It takes no memory.
    pub fn opening(&self) -> &Opening
        ensures { result.now ≡ self.now }
    {
        &self.place
    }

    /// A second holder of the same place.
    pub fn share(&self) -> Result<SharedOpening, AllocError>
        ensures { IfOk result (λ shared. shared ≡ self.now) }
    {
        let place = Arc::try_clone(&self.place)?;
        Ok(SharedOpening { place })
    }
}
