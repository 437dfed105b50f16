//! The result of flows: the text of their layout and of its certificate.

ghost use Rattle.std.specs.Prelude.{◌≡◌, ◌++◌, ◌<◌, ◌≤◌, codes, length, None, IfOk, IfSome};
ghost use Rattle.flow_list.specs.ResultText.{certificate_lines};
ghost use Rattle.flow_list.specs.Tree.{tree_of};
ghost use Rattle.flow_list.specs.TreeText.{tree_text};
ghost use Rattle.layout_laws.specs.Certified.{IsCertified};
ghost use Rattle.result_laws.specs.Given.{ended_lines};
ghost use Rattle.tree_laws.specs.Layout.{IsLayout};
ghost use Rattle.result_writer.specs.Printed.{result_text};

use cert_maker::cert_of;
use container_layout::layout;
use flow_list::{Book, Flows, Laid};
use frag_pool::Pool;
use frag_printer::write_tree_within;
use height_cert::write_cert;
use layout_laws::layouts_are_certified;
use mc_base::{NoMemory, Text};
use std::alloc::Global;

const FIRST_LINE: &[u8] = b"mcol 2\n";

/// The text of the certificate of a layout.
fn certificate(alloc: Global, flows: &Flows, book: &Book, laid: &Laid) -> Result<Text, NoMemory>
    requires { IsCertified flows.now book.now laid.now.rows }
    ensures { IfOk result (λ text. text ≡ ended_lines (certificate_lines flows.now)) }
{
    let cert = cert_of(alloc, flows, book, laid)?;
    write_cert(alloc, &cert)
}

/// A text with bytes after it, or None where both have more than `most` bytes.
fn joined(mut front: Text, back: &[u8], most: u64) -> Result<Option<Text>, NoMemory>
    requires { length front ≤ most }
    ensures text { IfOk result (λ found. IfSome found (λ text. text ≡ front ++ back.now)) }
    ensures short { IfOk result (λ found. IfSome found (λ text. length text ≤ most)) }
    ensures long { IfOk result (λ found. found ≡ None → most < length (front ++ back.now)) }
{
    if back.len() as u64 > most - front.len() as u64 {
        return Ok(None);
    }
    front.extend(back)?;
    Ok(Some(front))
}

/// The first line, or None where it has more than `most` bytes.
fn first_line(alloc: Global, most: u64) -> Result<Option<Text>, NoMemory>
    ensures text { IfOk result (λ found. IfSome found (λ text. text ≡ codes "mcol 2\n")) }
    ensures short { IfOk result (λ found. IfSome found (λ text. length text ≤ most)) }
    ensures long { IfOk result (λ found. found ≡ None → most < length (codes "mcol 2\n")) }
{
    joined(Text::new(alloc), FIRST_LINE, most)
}

/// The tree of a layout and its certificate after `front`, or None where all have more than `most` bytes.
fn parts_after(
    alloc: Global,
    flows: &Flows,
    laid: &Laid,
    book: &Book,
    pool: &Pool,
    front: Text,
    most: u64,
) -> Result<Option<Text>, NoMemory>
    requires layout { IsLayout flows.now laid.now pool.now }
    requires certified { IsCertified flows.now book.now laid.now.rows }
    requires room { length front ≤ most }
    ensures text { IfOk result (λ found. IfSome found (λ text.
        text ≡ (front ++ tree_text (tree_of flows.now)) ++ ended_lines (certificate_lines flows.now))) }
    ensures short { IfOk result (λ found. IfSome found (λ text. length text ≤ most)) }
    ensures long { IfOk result (λ found. found ≡ None →
        most < length ((front ++ tree_text (tree_of flows.now)) ++ ended_lines (certificate_lines flows.now))) }
{
    let Some(tree) = write_tree_within(alloc, flows, laid, pool, front, most)? else {
        return Ok(None);
    };
    let cert = certificate(alloc, flows, book, laid)?;
    joined(tree, cert.as_slice(), most)
}

/// The result of a layout, or None where it has more than `most` bytes: then no line is put after the first of the tree that
/// doesn't fit.
///
/// Conditions: `laid` is the layout of the flows, its ids live in the pool, and `book` and the rows of `laid` make its
/// certificate. The error is out of memory.
pub fn write_result_within(
    alloc: Global,
    flows: &Flows,
    laid: &Laid,
    book: &Book,
    pool: &Pool,
    most: u64,
) -> Result<Option<Text>, NoMemory>
    requires layout { IsLayout flows.now laid.now pool.now }
    requires certified { IsCertified flows.now book.now laid.now.rows }
    ensures text { IfOk result (λ found. IfSome found (λ text. text ≡ result_text flows.now)) }
    ensures short { IfOk result (λ found. IfSome found (λ text. length text ≤ most)) }
    ensures long { IfOk result (λ found. found ≡ None → most < length (result_text flows.now)) }
{
    match first_line(alloc, most)? {
        Some(first) => parts_after(alloc, flows, laid, book, pool, first, most),
        None => Ok(None),
    }
}

/// The result of flows, which are laid out for it, or None where it has more than `most` bytes. The error is out of memory.
pub fn result_within(alloc: Global, flows: &Flows, most: u64) -> Result<Option<Text>, NoMemory>
    ensures text { IfOk result (λ found. IfSome found (λ text. text ≡ result_text flows.now)) }
    ensures short { IfOk result (λ found. IfSome found (λ text. length text ≤ most)) }
    ensures long { IfOk result (λ found. found ≡ None → most < length (result_text flows.now)) }
{
    let mut book = Book::new(alloc);
    let mut pool = Pool::new(alloc);
    let laid = layout(alloc, flows, &mut book, &mut pool)?;
    layouts_are_certified();
    write_result_within(alloc, flows, &laid, &book, &pool, most)
}
