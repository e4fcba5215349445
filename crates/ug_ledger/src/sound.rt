ghost use Rattle.ug_ledger.specs.SoundLaws.{DoneIsSearched, DoneIsSound, DroppedIsSound, EndedIsSound, GivenIsSound, HandedIsSound, ImprovedIsSound, TakenInIsSound};

/// Each event keeps a sound ledger sound: a Done if its box was searched, every other event without
/// an assumption.
pub fn moves_keep_sound()
    ensures ended { EndedIsSound }
    ensures dropped { DroppedIsSound }
    ensures done { DoneIsSound }
    ensures taken_in { TakenInIsSound }
    ensures given { GivenIsSound }
    ensures handed { HandedIsSound }
    ensures improved { ImprovedIsSound }
{}

/// The box was searched where the ticket's Done is true, and the incumbent backs its cutoff.
pub fn true_done_is_searched()
    ensures { DoneIsSearched }
{}
