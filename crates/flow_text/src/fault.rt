//! Why reading stops.

/// Out of memory, or a fault.
pub type ReadError = mc_base::ReadError<mc_base::Fault>;
