//! Tests: scripts with their steps, and the first fault of each that has one.

use crate::{Edit, ScriptLine, Step, read_script};
use mc_base::{Input, Refusal, Rule};
use std::alloc::Global;
use std::test::Fail;

/// A line of a script as its place, the first letter of its word, its id and its rest.
fn told(line: &ScriptLine) -> (u64, u8, &[u8], &[u8]) {
    let nothing: &[u8] = b"";
    match &line.step {
        Step::Print => (line.at, b'p', nothing, nothing),
        Step::Change { edit } => match edit {
            Edit::Words { id, rest } => (line.at, b't', id.as_slice(), rest.as_slice()),
            Edit::Class { id, rest } => (line.at, b'c', id.as_slice(), rest.as_slice()),
            Edit::Remove { id } => (line.at, b'r', id.as_slice(), nothing),
        },
    }
}

fn fault(alloc: Global, script: &[u8]) -> Option<Refusal> {
    match read_script(alloc, script) {
        Ok(_) => None,
        Err(refusal) => Some(refusal),
    }
}

#[test]
fn lines_say_steps(rt: HostRuntime) -> Result<(), Fail> {
    let script = b"\xEF\xBB\xBFprint\ntext x aaaa  bbbb\r\ntext x \rclass a.b \xC3\xA9\nremove y\n";
    let lines = read_script(rt.alloc(), script)?;
    let all = lines.as_slice();
    assert_eq!(rt; all.len(), 5);
    assert_eq!(rt; told(&all[0]), (3, b'p', b"".as_slice(), b"".as_slice()));
    assert_eq!(rt;
        told(&all[1]),
        (9, b't', b"x".as_slice(), b"aaaa  bbbb".as_slice())
    );
    assert_eq!(rt; told(&all[2]), (28, b't', b"x".as_slice(), b"".as_slice()));
    assert_eq!(rt;
        told(&all[3]),
        (36, b'c', b"a.b".as_slice(), b"\xC3\xA9".as_slice())
    );
    assert_eq!(rt; told(&all[4]), (49, b'r', b"y".as_slice(), b"".as_slice()));
    Ok(())
}

#[test]
fn first_faults(rt: HostRuntime) -> Result<(), Fail> {
    for (script, offset, number) in [
        (b"text x\n\xFF".as_slice(), 7, 1),
        (b"print\nprint\0", 11, 1),
        (b"print", 0, 2),
        (b"print\nprint ", 6, 2),
        (b"print \nprint", 0, 3),
        (b"print\n\nprint\n", 6, 3),
        (b"text x\n", 0, 3),
        (b"text  x y\n", 0, 3),
        (b"text a\tb c\n", 0, 3),
        (b"remove x \n", 0, 3),
        (b"remove \n", 0, 3),
        (b"Print\n", 0, 3),
        (b"\r\nprint\n", 0, 3),
    ] {
        let rule = Rule {
            letter: b'l',
            number,
        };
        let input = Input::Script;
        assert_eq!(rt;
            fault(rt.alloc(), script),
            Some(Refusal::Grammar {
                input,
                offset,
                rule
            })
        );
    }
    assert_eq!(rt; fault(rt.alloc(), b""), None, "an empty script has no line");
    Ok(())
}
