ghost use Rattle.ug_records.specs.Laws.{RecordsAreUnique};

/// Each record is that of one problem, and none begins another.
pub fn records_are_unique()
    ensures { RecordsAreUnique }
{}
