ghost use Rattle.ug_fields.specs.Laws.{FieldsAreRead};

/// Each field that is spelled is read back, and what is read was spelled.
pub fn fields_are_read()
    ensures { FieldsAreRead }
{}
