//! The worked cases: each line of the file `cases` is a name and the words of a command, which is run over the files beside
//! it. The name is printed, then the status, what was put and what was told, each after the count of its bytes.
#![tactic(auto)]

use mc_base::{DiskFiles, StdSink};
use mc_run::run;
use std::alloc::{AllocError, Global};
use std::fs;
use std::io::{self, Write};

/// The words of a line, separated by spaces.
fn words_of(alloc: Global, line: &str) -> Result<Vec<String>, AllocError> {
    let mut words = Vec::new(alloc);
    for word in line.split(' ') {
        words.push(String::from_str(alloc, word)?)?;
    }
    Ok(words)
}

fn main(rt: HostRuntime) -> io::Result<()> {
    let cases = fs::read_to_string(&rt, "cases")?;
    for line in cases.lines() {
        let (name, command) = line.split_once(' ').unwrap_or((line, ""));
        println!(rt; "# {name}: {command}")?;
        // The gate shows what stands here where a case ends the program.
        eprintln!(rt; "{name}")?;
        let words = words_of(rt.alloc(), command)?;
        let (mut put, mut told) = (Vec::new(rt.alloc()), Vec::new(rt.alloc()));
        let (mut out, mut err) = (StdSink::new(&mut put), StdSink::new(&mut told));
        let mut files = DiskFiles::new(rt.alloc(), &rt);
        let status = run(rt.alloc(), words.as_slice(), &mut files, &mut out, &mut err);
        println!(rt; "status {status}, put {}", put.len())?;
        rt.stdout().write_all(put.as_slice())?;
        println!(rt; "told {}", told.len())?;
        rt.stdout().write_all(told.as_slice())?;
    }
    Ok(())
}
