ghost use Rattle.ug_checkpoint.specs.Laws.{RecoveryIsOne, NoneIsBad};

/// Two slots have one recovery at most, and where they have one, no slot is bad.
pub fn recovery_is_one()
    ensures one { RecoveryIsOne }
    ensures none { NoneIsBad }
{}
