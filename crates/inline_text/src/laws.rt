//! What the definitions mean for one another: laws, each the contract of a function that does nothing.

ghost use Rattle.std.specs.Prelude.{◌≡◌, ℕ, List, map};
ghost use Rattle.std.specs.List.{All};
ghost use Rattle.inline_text.specs.declared.content.Piece.{Piece};
ghost use Rattle.inline_text.specs.declared.content.RunStyle.{RunStyle};
ghost use Rattle.inline_text.specs.WhiteSpace.{KeepsToo, collapsed, renumbered};

/// Where the styles of a run are numbered anew, and each character's new style keeps white space where its own one does,
/// the collapsed run is the same but for the numbers.
pub fn numbering_styles_anew_changes_nothing_else()
    ensures { (styles others : List RunStyle) (number : ℕ → ℕ) (pieces : List Piece) →
        All (KeepsToo styles others number) pieces →
        collapsed (record { pieces = map (renumbered number) pieces; styles = others })
        ≡ map (renumbered number) (collapsed (record { pieces = pieces; styles = styles })) }
{}
