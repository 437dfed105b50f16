//! What the reader's functions on lists mean: laws, each the contract of a function without a body.

ghost use Rattle.std.specs.Prelude.{◌≡◌, ℕ, List, [], ◌∷◌, ◌++◌, nat_lt, Ok, Err, Some};
ghost use Rattle.mc_base.specs.declared.read_error.Fault.{Fault};
ghost use Rattle.flow_text.specs.declared.line.Form.{Form};
ghost use Rattle.flow_text.specs.Forms.{IsForm, form_of};
ghost use Rattle.flow_text.specs.declared.line.Line.{Line};
ghost use Rattle.flow_text.specs.declared.structure.Reading.TheVariants as readings;
ghost use Rattle.flow_text.specs.Grammar.{FlowFile, IsFlowFile};
ghost use Rattle.flow_text.specs.declared.structure.Reading.{Reading};
ghost use Rattle.flow_text.specs.Faults.{IsFirstFault, IsFront, LineFault};
ghost use Rattle.flow_text.specs.Limits.{first_above, first_long, first_wide, has_crowded_row, is_deep, items, no_counts};
ghost use Rattle.flow_text.specs.Run.{run};
ghost use Rattle.flow_text.specs.Text.{IsText, lines_of};
ghost use Rattle.flow_text.specs.TreeLimits.{file_columns, file_depth, file_items, file_most_inner, file_numbers};

/// What is a flow file is read to its end.
pub fn flow_files_are_read()
    ensures { (lines : List Line) (file : FlowFile) → IsFlowFile lines file → run readings.Opening lines ≡ Ok readings.Ended }
{}

/// What is read to its end is a flow file.
pub fn what_is_read_is_a_flow_file()
    ensures { (lines : List Line) → run readings.Opening lines ≡ Ok readings.Ended → (file : FlowFile) × IsFlowFile lines file }
{}

/// A line that says this is read so.
pub fn forms_are_read()
    ensures { (form : Form) (text : List ℕ) → IsForm form text → form_of text ≡ Some form }
{}

/// What is read in a line is what it says.
pub fn what_is_read_is_a_form()
    ensures { (text : List ℕ) (form : Form) → form_of text ≡ Some form → IsForm form text }
{}

/// A text whose lines are a flow file is read.
pub fn texts_of_flow_files_are_read()
    ensures { (text : List ℕ) (lines : List Line) (file : FlowFile) → IsText 0 lines text → IsFlowFile lines file
        → lines_of text ≡ Ok lines }
{}

/// What is read in a text is its lines, and they are a flow file.
pub fn what_is_read_is_the_text_of_a_flow_file()
    ensures { (text : List ℕ) (lines : List Line) → lines_of text ≡ Ok lines → IsText 0 lines text × (file : FlowFile)
        × IsFlowFile lines file }
{}

/// What may be read of the lines so far begins a flow file.
pub fn what_is_read_so_far_begins_a_flow_file()
    ensures { (front : List Line) (reading : Reading) → run readings.Opening front ≡ Ok reading → IsFront front }
{}

/// The fault of a line that may not follow those before it is the one that the grammar says.
pub fn a_line_that_may_not_follow_is_a_fault()
    ensures { (front : List Line) (reading : Reading) (next : Line) (fault : Fault) → run readings.Opening front ≡ Ok reading
        → run readings.Opening (front ++ next ∷ []) ≡ Err fault → IsFront front × (IsFront (front ++ next ∷ []) → ⊥)
        × LineFault front next fault }
{}

/// The fault of a text is its first one, by the grammar.
pub fn the_fault_of_a_text_is_the_first()
    ensures { (text : List ℕ) (fault : Fault) → lines_of text ≡ Err fault → IsFirstFault text fault }
{}

/// A text has at most one first fault: it is the one that is read, and no flow file has one.
pub fn a_text_has_one_first_fault_at_most()
    ensures read { (text : List ℕ) (fault : Fault) → IsFirstFault text fault → lines_of text ≡ Err fault }
    ensures one { (text : List ℕ) (fault other : Fault) → IsFirstFault text fault → IsFirstFault text other →
        fault ≡ other }
    ensures none { (text : List ℕ) (lines : List Line) (file : FlowFile) (fault : Fault) → IsText 0 lines text →
        IsFlowFile lines file → IsFirstFault text fault → ⊥ }
{}

/// The limits that are tested on lines are those of the file's rows.
pub fn limits_are_those_of_the_rows()
    ensures length { (lines : List Line) (file : FlowFile) → IsFlowFile lines file →
        first_long lines ≡ first_above 16777216 (file_numbers file) }
    ensures columns { (lines : List Line) (file : FlowFile) → IsFlowFile lines file →
        first_wide lines ≡ first_above 32 (file_columns file) }
    ensures nest { (lines : List Line) (file : FlowFile) → IsFlowFile lines file → is_deep 0 lines ≡ nat_lt 3 (file_depth file) }
    ensures items { (lines : List Line) (file : FlowFile) → IsFlowFile lines file → items lines ≡ file_items file }
    ensures inner_items { (lines : List Line) (file : FlowFile) → IsFlowFile lines file
        → has_crowded_row no_counts lines ≡ nat_lt 2000 (file_most_inner file) }
{}

/// Lines are one flow file at most.
pub fn lines_are_one_flow_file_at_most()
    ensures { (lines : List Line) (file other : FlowFile) → IsFlowFile lines file → IsFlowFile lines other → file ≡ other }
{}
