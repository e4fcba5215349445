ghost use Rattle.ug_ledger.specs.EndLaws.{AnswerIsRight, PrimitiveAreCovered, StartIsLedger, StartIsSound};

/// Starting nodes are a ledger, and a sound one exactly where their boxes are Covered.
pub fn begins_covered()
    ensures ledger { StartIsLedger }
    ensures sound { StartIsSound }
{}

/// The primitive nodes of a sound ledger are Covered; and where it holds nothing, the points kept
/// are a right answer.
pub fn covered_to_the_end()
    ensures primitive { PrimitiveAreCovered }
    ensures answer { AnswerIsRight }
{}
