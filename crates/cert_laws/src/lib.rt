//! Which certificate is made of a book of sizes and the rows of a layout, and that it is the layout's.
//!
//! It stands on flow_list, height_cert, cite_laws and result_laws. Its `specs/` say which entries are made, in which order, and
//! what their column lines cite; and when a book and rows are those of a layout. Its function promises one law, does nothing, and
//! takes no memory.
#![tactic(auto)]

ghost use Rattle.std.specs.Prelude.{List};
ghost use Rattle.flow_data.specs.declared.data.FlowsData.{FlowsData};
ghost use Rattle.flow_list.specs.declared.book.SizeEntry.{SizeEntry};
ghost use Rattle.flow_list.specs.declared.laid.LaidRow.{LaidRow};
ghost use Rattle.cert_laws.specs.Laid.{MadeIsLayouts};

/// Where the book has the sizes of the layout and the rows are those in stacks, the certificate that is made of them has the
/// lines of the layout's certificate.
pub fn made_certificates_are_the_layouts()
    ensures { (d : FlowsData) (book : List SizeEntry) (rows : List LaidRow) → MadeIsLayouts d book rows }
{}
