use crate::event::Event;
use ug_rules::Settings;

/// What may happen next, where a disk keeps the images of runs.
#[derive(Drop)]
pub enum DiskEvent {
    /// Something happens between the coordinator and its solvers.
    World(Event),
    /// The image of this moment is noted, to be saved.
    Note,
    /// The last noted image is saved. Each call of the disk succeeds or fails as its script says.
    /// Nothing happens if nothing is noted.
    Save,
    /// Power fails and leaves these bytes of the slots. The coordinator restarts.
    Crash {
        zero: Vec<u8>,
        one: Vec<u8>,
        settings: Settings,
    },
    /// The program alone stops, so that what is not synced stays so. The coordinator restarts.
    Stop {
        settings: Settings,
    },
}
