ghost use Rattle.ug_image.specs.Laws.{SpellingsAreUnique};

/// Each spelling is that of one image in one version, and none begins another.
pub fn spellings_are_unique()
    ensures { SpellingsAreUnique }
{}
