//! The names of failed reads.

ghost use Rattle.mc_base.specs.Outside.{IsNoted};

use crate::{FileFault, List, Text};
use std::alloc::Global;

/// Notes a failed read of this name. Where there is no memory for it, the answer says so, and the list is as before.
pub fn note(alloc: Global, failed: &mut List<Text>, name: &str) -> FileFault
    ensures { IsNoted result failed.old failed.new name.now }
{
    let Ok(bytes) = name.as_bytes().to_vec(alloc) else {
        return FileFault::NoMemory;
    };
    match failed.push(Text::of(bytes)) {
        Ok(()) => FileFault::Failed,
        Err(_) => FileFault::NoMemory,
    }
}
