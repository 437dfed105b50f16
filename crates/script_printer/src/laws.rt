//! A law about scripts of edits.

ghost use Rattle.script_printer.specs.Laws.{OneScriptAnswer};

use doc_flows::trees_have_one_answer;

/// A script of edits of a document has one answer: what it prints, or one reason why it is refused.
pub fn scripts_have_one_answer()
    ensures { OneScriptAnswer }
{
    trees_have_one_answer();
}
