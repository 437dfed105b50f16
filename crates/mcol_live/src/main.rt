//! The program mcol_live: the words, the files of the disk and standard output are handed to `live_run::live`, and the
//! program ends with its status.
#![tactic(auto)]

use live_run::live;
use mc_base::{DiskFiles, Sink, StdSink};
use std::io::ErrorKind;
use std::process::ExitCode;
use std::rt::Env;
use std::{env, io};

/// The words after the program's name.
fn words<R: Env + AllocGlobal>(rt: &R) -> io::Result<Vec<String>> {
    let mut words = Vec::new(rt.alloc());
    for word in env::args(rt)?.skip(1) {
        words.push(word)?;
    }
    Ok(words)
}

fn main(rt: HostRuntime) -> ExitCode {
    let mut err = StdSink::new(rt.stderr());
    let words = match words(&rt) {
        Ok(words) => words,
        Err(error) if error.kind() == ErrorKind::OutOfMemory => {
            let _told = err.put(b"memory\n");
            return ExitCode::from(7);
        }
        // A word that is no text isn't taken.
        Err(_) => Vec::new(rt.alloc()),
    };
    let mut files = DiskFiles::new(rt.alloc(), rt);
    let mut out = StdSink::new(rt.stdout());
    ExitCode::from(live(rt.alloc(), words.as_slice(), &mut files, &mut out, &mut err))
}
