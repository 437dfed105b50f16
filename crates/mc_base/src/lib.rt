//! What every crate of mcol speaks of: lengths, lists and texts, places in flows, fragments, refusals, and the traits of
//! the outside.
//!
//! It stands on no other crate of the repository. It promises that contracts see a `List` as its items, a `Text` as its
//! bytes and a `Token` as its numbers, and that reading and writing answer a fault only where a count of faults rose.
#![tactic(auto)]

mod decimal;
mod disk;
mod fragment;
mod level;
mod list;
mod memory;
mod noted;
mod outside;
mod read_error;
mod refusal;
mod sound_text;
mod text;
mod token;
mod units;

pub use decimal::{Decimal, read_decimal};
pub use disk::{DiskFiles, StdSink};
pub use fragment::{FragId, Node};
pub use level::Level;
pub use list::List;
pub use memory::{HeldFile, MemoryFiles, MemorySink, SinkFail};
pub use outside::{FileFault, Files, Sink, SinkFailed};
pub use read_error::{Fault, ReadError, fault_at};
pub use refusal::{ConstructName, Found, Input, LimitName, NoMemory, Refusal, Rule};
pub use sound_text::{nonzero_len, sound_len};
pub use text::Text;
pub use token::Token;
pub use units::{Rect, Units};
