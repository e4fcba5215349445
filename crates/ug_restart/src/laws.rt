ghost use Rattle.ug_restart.specs.Keeps.{BeginsKeepImage, RestartsKeepImage};

/// A start loses no checkpoint. If recovery found an image before, whatever a crash left, it finds
/// one at each moment of a start, also of one that a disk fault ends: one that it could find
/// before, or the first image of the run that was to begin.
pub fn starts_keep_an_image()
    ensures begin { BeginsKeepImage }
    ensures restart { RestartsKeepImage }
{}
