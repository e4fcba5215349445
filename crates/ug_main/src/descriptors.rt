use std::fs::File;
use std::io;
use std::rt::Files;

// What takes the place of a descriptor that is closed.
const NOTHING: &str = "/dev/null";

/// Takes those of the descriptors 0, 1 and 2 that were closed when the program started, for as long
/// as these files are kept: a file that is opened gets the lowest free one. Otherwise a slot of the
/// checkpoint could be descriptor 2, and messages on standard error would overwrite its image. They
/// are open for reading only, so writing to them fails as it did before.
pub fn take_standard<R: Files<File = File>>(rt: &R) -> [io::Result<File>; 3] {
    [
        File::open(rt, NOTHING),
        File::open(rt, NOTHING),
        File::open(rt, NOTHING),
    ]
}
