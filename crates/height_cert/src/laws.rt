//! What certificates mean in the definitions.

ghost use Rattle.std.specs.Prelude.{ℕ, List};
ghost use Rattle.height_cert.specs.declared.cert.Cert.{Cert};
ghost use Rattle.height_cert.specs.Laws.{ReadAgain};

/// A certificate of the forms, with a list of sizes for each column line, is read again as itself after `mcol 2` and a tree: in
/// that text the result is read that has this tree and its entries, and no other certificate gives that result.
pub fn certificates_are_read_again()
    ensures { (tree : List (List ℕ)) (c : Cert) → ReadAgain tree c }
{}
