//! Laws about what wins.

ghost use Rattle.css_winner.specs.Laws.{OneWins, PrecedencesAreOrdered};

/// Of any declarations one comes above the other, or they have one place; and what comes above what comes above another comes
/// above that.
pub fn precedences_are_ordered()
    ensures { PrecedencesAreOrdered }
{}

/// At most one declaration wins for a property of an element.
pub fn one_wins()
    ensures { OneWins }
{}
