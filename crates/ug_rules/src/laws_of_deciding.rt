ghost use Rattle.ug_rules.specs.DecidingLaws.{AnnouncedKeeps, AnswerIsRight, CollectedKeeps, DecidedIsSettled, DecidedKeeps, DroppedKeeps, GivenKeeps, RaceEndedKeeps, StandsKeeps};

/// Each part of a decision keeps what every book is, and a sound book sound.
pub fn parts_keep_books()
    ensures dropped { DroppedKeeps }
    ensures announced { AnnouncedKeeps }
    ensures race { RaceEndedKeeps }
    ensures given { GivenKeeps }
    ensures collected { CollectedKeeps }
{}

/// So does a decision, and what stands of it where memory ended it.
pub fn deciding_keeps_books()
    ensures decided { DecidedKeeps }
    ensures stands { StandsKeeps }
{}

/// After a decision no node in the pool is beyond the incumbent's cutoff, and no rank is idle
/// beside a node that it could have.
pub fn decided_is_settled()
    ensures { DecidedIsSettled }
{}

/// If nothing is held, a sound book's incumbent, or its absence, is a right answer.
pub fn answers_are_right()
    ensures { AnswerIsRight }
{}
