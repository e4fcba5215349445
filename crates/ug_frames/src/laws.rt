ghost use Rattle.ug_frames.specs.Laws.{FramesAreApart};

/// Each frame is that of one message, none begins another, and none is of an order and a report.
pub fn frames_are_apart()
    ensures { FramesAreApart }
{}
