//! The parts of a certificate.

use flow_list::{Range, SizeEntry};
use mc_base::{List, Units};

/// The numbers of the sizes that a column line cites: how many sizes stand before each of them in the certificate.
#[derive(Drop)]
pub struct Cites {
    pub sizes: List<u64>,
}

/// An entry: the size of a row from a place in it on; the height of a balanced row directly in a stack, what was available to it
/// (none where that is unlimited), whether it fits, and why no lesser height does; or the height of a row with
/// `column-fill: auto` in effect. Heights are in units.
#[derive(Drop)]
pub enum CertEntry {
    Size(SizeEntry),
    Row {
        row: u32,
        available: Option<Units>,
        height: Units,
        fits: bool,
        ranges: List<Range>,
    },
    Auto {
        row: u32,
        available: Option<Units>,
        height: Units,
    },
}

/// A certificate: its entries, and a list of sizes for each column line of them, counted through all entries. A column line
/// without a list cites none.
#[derive(Drop)]
pub struct Cert {
    pub entries: List<CertEntry>,
    pub cites: List<Cites>,
}
