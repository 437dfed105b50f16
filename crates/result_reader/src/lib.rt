//! Reading the text of a result: the lines of its tree and its certificate, or its first fault.
//!
//! It stands on mc_base, flow_list, height_cert and result_laws. `read_result` promises the result that result_laws reads in the
//! text, or the fault that it tells, with the line at which it stands; and that the certificate that `write_cert` writes is read
//! again as itself.
#![tactic(auto)]

mod build;
mod line;
mod number;
mod read;
mod words;

pub use read::{BadResult, ReadResult, read_result};
