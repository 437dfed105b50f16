//! Certificates: why each lesser height of each balanced row was rejected, and the text that says it.
//!
//! It stands on mc_base, flow_data, flow_list and result_laws. A certificate has the entries of a result, and beside them the
//! numbers of the sizes that the column lines cite. `write_cert` promises the lines that result_laws gives these entries.
//! `certificates_are_read_again` promises that a certificate within the forms is read again as itself in the text that has its
//! lines.
#![tactic(auto)]

mod cert;
mod laws;
mod words;
mod write;

pub use cert::{Cert, CertEntry, Cites};
pub use laws::certificates_are_read_again;
pub use write::write_cert;
