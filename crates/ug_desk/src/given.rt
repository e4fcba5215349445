ghost use Rattle.ug_desk.specs.Givens.{IsOpened};

use crate::parcel::Parcel;
use ug_worker::{Took, Untaken};

/// What there is for a rank.
#[derive(Drop)]
pub enum Given {
    /// The work that it has.
    Node(Parcel),
    /// Nothing now.
    Nothing,
    /// No node is held, or the limit of reports is reached.
    NoMore,
}

/// What a pass takes of what there is.
pub fn opened(given: Result<Given, Untaken>) -> Result<Took, Untaken>
    ensures { IsOpened given result }
{
    match given {
        Ok(Given::Node(parcel)) => match parcel.open() {
            Ok(task) => Ok(Took::Work(task)),
            Err(_) => Err(Untaken::Making),
        },
        Ok(Given::Nothing) => Ok(Took::Wait),
        Ok(Given::NoMore) => Ok(Took::Over),
        Err(end) => Err(end),
    }
}
