ghost use Rattle.ug_laws.specs.DiskLaws.{CrashesLoseNothing, ImagesAreFound, NewRunsBegin, NextRunsBegin, RunsRise};

/// Whatever solvers send and whoever is lost, wherever a save stops, whatever a crash leaves of the
/// slots and however often the coordinator restarts: at every moment between two events each better
/// point lies in a primitive node held, and at every moment since the run has begun, within a save
/// too, recovery finds an image, and each better point lies in a node of it; as long as what is
/// sent is honest.
///
/// Honest or not, that image is of a moment so far and no older than the last acknowledged one, and
/// each restart takes a run number above those of all runs before.
pub fn crashes_lose_nothing()
    ensures nothing { CrashesLoseNothing }
    ensures found { ImagesAreFound }
    ensures runs { RunsRise }
{}

/// These laws assume a run such as `begin` and `restart` return: `begin` whatever the disk had,
/// `restart` if the image from which it resumes was Covered.
pub fn runs_begin()
    ensures new { NewRunsBegin }
    ensures next { NextRunsBegin }
{}
