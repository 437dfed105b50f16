//! The certificate of a layout: why each lesser height of each balanced row was rejected, made of the book of sizes and the rows.
//!
//! It stands on mc_base, flow_data, flow_list, height_cert, cite_laws and cert_laws. `cert_of` promises the certificate that
//! cert_laws makes of a book and rows, which is the layout's where these are the layout's: the entries of the rows in order, and
//! before each those of the sizes that stand before it and before no earlier row. Each column line cites, in order, the numbers
//! of the entries of the sizes that its own column rests on, as cite_laws tells them by the lines alone. The entries own their
//! ranges. Its only error is out of memory.
#![tactic(auto)]

mod cite;
mod copy;
mod items;
mod make;

pub use make::cert_of;
