//! A session of edits.

use crate::editing::edit_document;
use css_data::Sheet;
use doc_flows::tree_flows;
use edit_script::{Edit, EditFault};
use flow_list::Flows;
use font_table::Fonts;
use html_grammar::Dom;
use kept_lines::KeptLines;
use mc_base::{List, Refusal, Text, Units};
use page_views::TEXT_LIMIT;
use result_writer::result_or_limit;
use std::alloc::Global;
use std::marker::Model;

/// A document that is edited, with its sheets in order, its fonts, a width and an available height, in units of 1/64 px, and with
/// the lines of its runs as they were last printed.
///
/// The document is well formed, its style attributes are on their grammar, and the width is below 2^60.
#[derive(Drop)]
pub struct Session {
    alloc: Global,
    dom: Dom,
    sheets: List<Sheet>,
    fonts: Fonts,
    width: Units,
    height: Option<Units>,
    lines: KeptLines,
}

impl Model for Session {
    ghost use Rattle.kept_lines.specs.Keeping.{AreTrue};
    ghost use Rattle.mc_session.specs.Session.{Asked, IsSound, asked_of};

    ghost Value = { Asked };

    ghost view = { λ s. asked_of s.dom s.sheets s.fonts s.width s.height s.lines.broken };

    ghost invariant = { λ s. IsSound s.dom s.width × AreTrue s.fonts s.lines };
}

impl Session {
    ghost use Rattle.std.specs.Prelude.{◌≡◌, ◌⊎◌, ◌<◌, ◌^◌, None, OnOk, OnErr, IfOk, IfErr};
    ghost use Rattle.mc_base.specs.declared.refusal.Refusal.TheVariants as refusals;
    ghost use Rattle.html_grammar.specs.Tree.{Forest, nodes_from};
    ghost use Rattle.html_subset.specs.WellFormed.{IsWellFormed};
    ghost use Rattle.css_cascade.specs.Attributes.{AllAreRead};
    ghost use Rattle.dom_edits.specs.Done.{Answers};
    ghost use Rattle.dom_edits.specs.Sizes.{GrowsBy};
    ghost use Rattle.page_views.specs.Shown.{text_limit};
    ghost use Rattle.mc_session.specs.Edits.{StaysFormed};
    ghost use Rattle.mc_session.specs.Printed.{IsPrinted, IsDenied};
    ghost use Rattle.mc_session.specs.Session.{HasSame, HasSameDocument, IsRefused, Says};

    /// A session of a document, with the sheets of the author and of its style elements in order. It takes no memory.
    pub fn begin(
        alloc: Global,
        dom: Dom,
        sheets: List<Sheet>,
        fonts: Fonts,
        width: Units,
        height: Option<Units>,
    ) -> Self
        requires formed { IsWellFormed dom }
        requires read { AllAreRead dom.nodes }
        requires wide { width < 2 ^ 60 }
        ensures { result ≡ record { dom = dom; sheets = sheets; faces = fonts; width = width; height = height; broken = 0 } }
    {
        Session {
            alloc,
            dom,
            sheets,
            fonts,
            width,
            height,
            lines: KeptLines::new(alloc),
        }
    }

    /// Does an edit: what `edited` says of the document's tree, or its fault.
    ///
    /// `NoElement` comes exactly where no element has the id, and `NotAllowed` exactly where the first that has it, in document
    /// order, may not be edited so. The session is unchanged by every fault. `NoMemory` is out of memory.
    pub fn apply(&mut self, edit: &Edit) -> Result<(), EditFault>
        // Where the edit is done, the edited tree is well formed.
        requires { StaysFormed edit.now self.old.dom }
        ensures done { (tree : Forest) → self.old.dom.nodes ≡ nodes_from None 0 tree →
            Answers edit.now tree self.new.dom.nodes result }
        ensures unchanged { OnErr result (self.new ≡ self.old) }
        ensures others { HasSame self.old self.new }
        ensures grows { OnOk result (GrowsBy edit.now self.old.dom.nodes self.new.dom.nodes) }
        ensures formed { IsWellFormed self.new.dom }
    {
        edit_document(self.alloc, &mut self.dom, edit)
    }

    /// The flows of the document as it is now. A run is broken into lines only where its lines aren't kept.
    fn flows(&mut self) -> Result<Flows, Refusal>
        ensures flows { IfOk result (Says self.old) }
        ensures refused { IfErr result (λ e. (e ≡ refusals.NoMemory) ⊎ IsRefused self.old e) }
        ensures same { HasSameDocument self.old self.new }
    {
        let flows = tree_flows(
            self.alloc,
            &self.dom,
            self.sheets.as_slice(),
            &self.fonts,
            self.width,
            self.height,
            &mut self.lines,
        )?;
        self.lines.turn(self.alloc);
        Ok(flows)
    }

    /// The result of the document as it is now, as layout from the start would write it, where it has at most `most` bytes.
    ///
    /// A refusal is `Construct` for the first construct at an element that makes a box, else `Limit` for the first limit that the
    /// flows pass, else `Limit` for the bytes of results where the result has more than `most`; or memory ran out. The document
    /// is unchanged by every answer.
    pub fn print(&mut self, most: u64) -> Result<Text, Refusal>
        ensures text { IfOk result (IsPrinted self.old most) }
        ensures refused { IfErr result (λ e. (e ≡ refusals.NoMemory) ⊎ IsDenied self.old most e) }
        ensures same { HasSameDocument self.old self.new }
    {
        match self.flows() {
            Ok(flows) => result_or_limit(self.alloc, &flows, most),
            Err(refusal) => Err(refusal),
        }
    }

    /// The result of the document as it is now: what `print` answers where results have at most 2^28 bytes.
    pub fn result(&mut self) -> Result<Text, Refusal>
        ensures text { IfOk result (IsPrinted self.old text_limit) }
        ensures refused { IfErr result (λ e. (e ≡ refusals.NoMemory) ⊎ IsDenied self.old text_limit e) }
        ensures same { HasSameDocument self.old self.new }
    {
        self.print(TEXT_LIMIT)
    }

    /// How many runs were broken into lines so far; it stays at its greatest value.
    pub fn broken(&self) -> u64
        ensures { result ≡ self.now.broken }
    {
        self.lines.broken()
    }
}
