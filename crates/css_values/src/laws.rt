ghost use Rattle.css_values.specs.Names.{NamesAreKnown};

/// Each property is known by its name, and no two have one name.
pub fn names_are_known()
    ensures { NamesAreKnown }
{}
