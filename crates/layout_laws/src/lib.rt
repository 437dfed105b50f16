//! That the certificate made of a whole layout is the certificate of its flows.
//!
//! It stands on container_layout, cert_laws and range_laws. Its function promises one law, does nothing, and takes no memory:
//! what `container_layout::layout` promises of its book and rows is what `cert_maker::cert_of` asks of them, and what it makes of
//! them has the lines of the certificate that the definitions give.
#![tactic(auto)]

ghost use Rattle.std.specs.Prelude.{List};
ghost use Rattle.flow_data.specs.declared.data.FlowsData.{FlowsData};
ghost use Rattle.flow_list.specs.declared.book.SizeEntry.{SizeEntry};
ghost use Rattle.flow_list.specs.declared.laid.LaidRow.{LaidRow};
ghost use Rattle.frag_pool.specs.Nodes.{Nodes};
ghost use Rattle.layout_laws.specs.Certified.{LayoutIsCertified};

use cert_laws::made_certificates_are_the_layouts;
use range_laws::uses_enter;

/// Where a book is true and has the sizes of the certificate, and these rows were laid out after it, the certificate that is made
/// of them can be made, and has the lines of the certificate of the flows.
pub fn layouts_are_certified()
    ensures { (d : FlowsData) (pool : Nodes) (book : List SizeEntry) (rows : List LaidRow) → LayoutIsCertified d pool book rows }
{
    uses_enter();
    made_certificates_are_the_layouts();
}
