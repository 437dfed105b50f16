//! Which rows of a document ask for each of their pieces to be as low as it can be (`column-fill: balance-all`).
//!
//! It stands on flow_list and open_boxes for the rows and the boxes around them, and on box_data and css_cascade for the styles
//! of these. `flags` promises a flag for each row: whether the innermost box that is open at its item has the value. It asks for
//! nothing of the boxes and styles: where a number names none of them, the flag is false.
#![tactic(auto)]

ghost use Rattle.std.specs.Prelude.{◌≡◌, ◌∷◌, ◌++◌, [], ◌<◌, IfOk, List as Items, OnOk, false, length, replicate, set, true};
ghost use Rattle.std.specs.Prelude.{cond, ℕ, Bool};
ghost use Rattle.css_cascade.specs.Entries.{style_at};
ghost use Rattle.flow_data.specs.Flows.{flow_of, item_of, open_at};
ghost use Rattle.box_style.specs.Styles as styles_of;
ghost use Rattle.row_flags.specs.Asking as asking;
ghost use Rattle.row_flags.specs.Asking.{AreFlags, asking_at, asking_in, asking_rows, style_asks};

use box_data::{BoxNode, BoxTree};
use css_cascade::{Computed, Styles};
use flow_list::{Counts, Flows, Item, flow_counts, item_at, item_count, opened_in};
use html_grammar::NodeId;
use mc_base::{List, NoMemory};
use open_boxes::{boxes_across, pass_head, pass_tail};
use std::alloc::Global;

/// Whether the value is this word.
fn is_word(value: &Computed, word: &[u8]) -> bool
    ensures { result ≡ styles_of.is_word word.now value.now }
{
    match value {
        Computed::Word { name } => name.as_slice() == word,
        _ => false,
    }
}

/// Whether an element has `column-fill: balance-all`.
fn element_asks(styles: &Styles, element: NodeId) -> bool
    ensures { result ≡ style_asks (style_at styles.now element) }
{
    match styles.entries().get(element as usize) {
        Some(Some(entry)) => is_word(&entry.style.column_fill, b"balance-all"),
        _ => false,
    }
}

/// Whether the element of a box has it.
fn box_asks(styles: &Styles, boxes: &[BoxNode], number: u32) -> bool
    ensures { result ≡ asking.box_asks styles.now boxes.now number }
{
    match boxes.get(number as usize) {
        Some(node) => element_asks(styles, node.element),
        None => false,
    }
}

/// Whether the innermost of these boxes has it, which are listed from the outermost inward.
fn innermost_asks(styles: &Styles, boxes: &[BoxNode], around: &[u32]) -> bool
    ensures { result ≡ asking.innermost_asks (asking.box_asks styles.now boxes.now) around.now }
{
    match around.last() {
        Some(number) => box_asks(styles, boxes, *number),
        None => false,
    }
}

/// Item `k` of a flow.
fn item_in(flows: &Flows, flow: u32, k: u32) -> Item
    requires flow { flow < length flows.now.flows }
    requires item { k < length (flow_of flows.now flow).items }
    ensures { result ≡ item_of (flow_of flows.now flow) k }
{
    let mut tally = Counts {
        reads: 0,
        below: 0,
        folds: 0,
    };
    item_at(flows, flow, k, &mut tally)
}

/// Flags a row.
fn raise(flags: &mut Vec<bool>, row: u32)
    requires { row < length flags.old.items }
    ensures { flags.new.items ≡ set flags.old.items row true }
{
    flags[row as usize] = true;
}

/// Flags item `k` of a flow, where it is a row and the innermost of the boxes open there has the value.
fn flag_item(
    flows: &Flows,
    flow: u32,
    k: u32,
    styles: &Styles,
    boxes: &[BoxNode],
    around: &[u32],
    flags: &mut Vec<bool>,
)
    requires flow { flow < length flows.now.flows }
    requires item { k < length (flow_of flows.now flow).items }
    requires around { around.now ≡ open_at (flow_of flows.now flow) k }
    requires count { length flags.old.items ≡ length flows.now.rows }
    ensures flags { (rows : Items ℕ) → AreFlags flows.now rows flags.old.items → AreFlags flows.now
        (rows ++ asking_at (asking.box_asks styles.now boxes.now) (flow_of flows.now flow) k) flags.new.items }
    ensures count { length flags.new.items ≡ length flows.now.rows }
{
    // Sealed flows are sound.
    let _counts = flow_counts(flows);
    if !innermost_asks(styles, boxes, around) {
        return;
    }
    match item_in(flows, flow, k) {
        Item::Atom { .. } => {}
        Item::Row(row) => raise(flags, row),
    }
}

/// Flags the rows of a flow.
fn flag_flow(
    alloc: Global,
    flows: &Flows,
    flow: u32,
    styles: &Styles,
    boxes: &[BoxNode],
    flags: &mut Vec<bool>,
) -> Result<(), NoMemory>
    requires flow { flow < length flows.now.flows }
    requires count { length flags.old.items ≡ length flows.now.rows }
    ensures flags { OnOk result ((rows : Items ℕ) → AreFlags flows.now rows flags.old.items → AreFlags flows.now
        (rows ++ asking_in (asking.box_asks styles.now boxes.now) (flow_of flows.now flow)
        (length (flow_of flows.now flow).items)) flags.new.items) }
    ensures count { OnOk result (length flags.new.items ≡ length flows.now.rows) }
{
    // Sealed flows are sound.
    let _counts = flow_counts(flows);
    let count = item_count(flows, flow);
    let mut around = boxes_across(alloc, flows, flow, 0)?;
    for k in 0..count {
        pass_head(flows, flow, &mut around, k)?;
        flag_item(flows, flow, k, styles, boxes, around.as_slice(), flags);
        pass_tail(flows, flow, &mut around, k)?;
    }
    Ok(())
}

/// No row is flagged.
fn no_flags(alloc: Global, count: u32) -> Result<Vec<bool>, NoMemory>
    ensures { IfOk result (λ flags. flags.items ≡ replicate count false) }
{
    let mut flags = Vec::new(alloc);
    for _number in 0..count {
        flags.push(false)?;
    }
    Ok(flags)
}

/// For each row whether the innermost box that is open at its item has `column-fill: balance-all` (Multi-column, section 7.1);
/// false for a row at which no box is open. `boxes` are those that the flows name, and `styles` those of their elements.
pub fn flags(
    alloc: Global,
    flows: &Flows,
    boxes: &BoxTree,
    styles: &Styles,
) -> Result<List<bool>, NoMemory>
    ensures { IfOk result (λ flags. AreFlags flows.now
        (asking_rows (asking.box_asks styles.now boxes.now.nodes) flows.now) flags) }
{
    let counts = flow_counts(flows);
    let mut flags = no_flags(alloc, counts.rows)?;
    for flow in 0..counts.flows {
        flag_flow(
            alloc,
            flows,
            flow,
            styles,
            boxes.nodes.as_slice(),
            &mut flags,
        )?;
    }
    Ok(List::of(flags))
}
