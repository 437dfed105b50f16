ghost use Rattle.css_computed.specs.Styles.{FieldsAreNamed};

/// The field of each property is the one that is named by it.
pub fn fields_are_named()
    ensures { FieldsAreNamed }
{}
