//! Texts of drawings, and the first line of other texts that is off the forms.

use crate::{BadDrawing, read_drawing, write_drawing};
use mc_base::Text;
use std::alloc::{AllocError, Global};
use std::process::Abort;
use std::test::Fail;

const HEAD: &str = "<svg xmlns=\"http://www.w3.org/2000/svg\" viewBox=\"0 0 11264 2560\">\n";

const COLUMN: &str = "<rect class=\"col\" x=\"6144\" y=\"0\" width=\"5120\" height=\"2560\"/>\n";

const RULE: &str =
    "<rect class=\"rule\" x=\"5568\" y=\"0\" width=\"128\" height=\"9999999999999999999\"/>\n";

const OTHER: &str = "<rect class=\"left\" x=\"0\" y=\"0\" width=\"0\" height=\"0\"/>\n";

const ZEROS: &str = "<rect class=\"box\" x=\"00\" y=\"0\" width=\"0\" height=\"0\"/>\n";

const LONG: &str =
    "<rect class=\"box\" x=\"0\" y=\"0\" width=\"0\" height=\"10000000000000000000\"/>\n";

const FOOT: &str = "</svg>\n";

/// The lines of a text, and its first bad line, none where it is a drawing.
const TEXTS: [(&[&str], Option<u64>); 13] = [
    (&[HEAD, RULE, COLUMN, FOOT], None),
    (&[HEAD, FOOT], None),
    (&[], Some(1)),
    (&[RULE, FOOT], Some(1)),
    (&[FOOT], Some(1)),
    (&[HEAD], Some(2)),
    (&[HEAD, HEAD, FOOT], Some(2)),
    (&[HEAD, RULE, COLUMN], Some(4)),
    (&[HEAD, COLUMN, OTHER, FOOT], Some(3)),
    (&[HEAD, COLUMN, ZEROS, FOOT], Some(3)),
    (&[HEAD, LONG, FOOT], Some(2)),
    (&[HEAD, COLUMN, "</svg>"], Some(3)),
    (&[HEAD, COLUMN, FOOT, COLUMN], Some(4)),
];

fn text_of(alloc: Global, lines: &[&'static str]) -> Result<Text, AllocError> {
    let mut text = Text::new(alloc);
    for line in lines {
        text.extend(line.as_bytes())?;
    }
    Ok(text)
}

/// The first bad line of a text, or none where it is a drawing that is written so again.
fn bad_line(alloc: Global, text: &[u8]) -> Result<Option<u64>, AllocError> {
    match read_drawing(alloc, text) {
        Ok(drawing) => match write_drawing(alloc, &drawing) {
            Ok(again) => Ok((again.as_slice() != text).then_some(0)),
            Err(_) => Err(AllocError),
        },
        Err(BadDrawing::BadLine { line }) => Ok(Some(line)),
        Err(BadDrawing::NoMemory) => Err(AllocError),
    }
}

#[test]
fn the_first_bad_line_is_told(rt: HostRuntime) -> Result<(), Fail> {
    for (lines, wanted) in TEXTS {
        let text = text_of(rt.alloc(), lines)?;
        let found = bad_line(rt.alloc(), text.as_slice())?;
        assert_eq!(rt; found, wanted);
    }
    Ok(())
}
