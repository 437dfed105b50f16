//! The elements whose end is still to come.

ghost use Rattle.std.specs.Prelude.{◌≡◌, ◌+◌, [], length};
ghost use Rattle.html_grammar.specs.Machine as machine;
ghost use Rattle.html_subset.specs.Gives.{Gives};
ghost use Rattle.html_subset.specs.Stack.{stack_of, closed_on_top};

use crate::fault::ReadError;
use crate::names;
use html_grammar::{Fault, Open};
use mc_base::Text;
use std::alloc::{AllocError, Global};
use std::marker::Model;

/// The elements whose end is still to come, which contracts see with the innermost first. It is kept last.
#[derive(Drop)]
pub struct Stack {
    opens: Vec<Open>,
}

impl Model for Stack {
    ghost use Rattle.std.specs.Prelude.{List};
    ghost use Rattle.html_grammar.specs.declared.stage.Open.{Open};
    ghost use Rattle.html_subset.specs.Stack.{stack_of};

    ghost Value = { List Open };

    ghost view = { λ s. stack_of s.opens.items };
}

/// Whether a start tag of this name closes the innermost.
fn is_closed_by(opens: &[Open], name: &[u8]) -> bool
    ensures { result ≡ closed_on_top name.now (stack_of opens.now) }
{
    let count = opens.len();
    if count == 0 {
        return false;
    }
    names::closes(name, opens[count - 1].name.as_slice())
}

fn number_of_last(opens: &[Open]) -> Option<u32>
    ensures { result ≡ machine.innermost (stack_of opens.now) }
{
    let count = opens.len();
    if count == 0 {
        return None;
    }
    Some(opens[count - 1].number)
}

/// How deep an element in the innermost stands, where the body stands in `html`.
fn depth_in(opens: &[Open]) -> usize
    ensures { result ≡ length (stack_of opens.now) + 2 }
{
    opens.len() + 2
}

fn close_closed(opens: &mut Vec<Open>, name: &[u8])
    ensures { stack_of opens.new.items ≡ machine.drop_closed name.now (stack_of opens.old.items) }
{
    while is_closed_by(opens, name) {
        let _ = opens.pop();
    }
}

/// Closes `html` where it is the outermost that is open.
fn at_bottom(at: u64, name: &[u8], html: bool) -> Result<bool, ReadError>
    ensures { Gives (λ left. ([], left)) result (machine.without at name.now html []) }
{
    if !html {
        return Err(ReadError::Fault(Fault { at, rule: 6 }));
    }
    if !names::same(name, b"html") {
        return Err(ReadError::Fault(Fault { at, rule: 6 }));
    }
    Ok(false)
}

/// Closes up to the innermost element of this name, `html` as the outermost. Answers whether `html` stays open.
fn close_up_to(opens: &mut Vec<Open>, at: u64, name: &[u8], html: bool) -> Result<bool, ReadError>
    ensures { Gives (λ left. (stack_of opens.new.items, left)) result
        (machine.without at name.now html (stack_of opens.old.items)) }
{
    while let Some(open) = opens.pop() {
        if names::same(name, open.name.as_slice()) {
            return Ok(html);
        }
        if !names::omits(open.name.as_slice()) {
            return Err(ReadError::Fault(Fault { at, rule: 6 }));
        }
    }
    at_bottom(at, name, html)
}

/// Whether each may end where the text ends.
fn all_may_end(opens: &mut Vec<Open>) -> bool
    ensures { result ≡ machine.all_omit (stack_of opens.old.items) }
{
    while let Some(open) = opens.pop() {
        if !names::omits(open.name.as_slice()) {
            return false;
        }
    }
    true
}

impl Stack {
    ghost use Rattle.std.specs.Prelude.{◌≡◌, ◌+◌, ◌∷◌, [], length, codes, IfOk, OnOk, if◌then◌else◌};
    ghost use Rattle.html_grammar.specs.Names as names;
    ghost use Rattle.html_grammar.specs.Machine as machine;
    ghost use Rattle.html_subset.specs.Gives.{Gives};
    ghost use Rattle.html_subset.specs.Stack.{open_at};

    pub fn new(alloc: Global) -> Self
        ensures { result ≡ [] }
    {
        Stack {
            opens: Vec::new(alloc),
        }
    }

    /// How deep an element in the innermost stands, where the body stands in `html`.
    pub fn depth(&self) -> usize
        ensures { result ≡ length self.now + 2 }
    {
        depth_in(&self.opens)
    }

    /// Opens an element.
    fn push(&mut self, number: u32, name: Text) -> Result<(), AllocError>
        ensures { OnOk result (self.new ≡ open_at number name ∷ self.old) }
    {
        self.opens.push(Open { number, name })?;
        Ok(())
    }

    /// The body alone.
    pub fn body(alloc: Global, number: u32) -> Result<Stack, AllocError>
        ensures { IfOk result (λ s. s ≡ open_at number (codes "body") ∷ []) }
    {
        let mut stack = Stack::new(alloc);
        stack.push(number, Text::of(Vec::from_slice(alloc, b"body")?))?;
        Ok(stack)
    }

    /// Opens an element, unless it is void.
    pub fn open(&mut self, alloc: Global, number: u32, name: &[u8]) -> Result<(), AllocError>
        ensures { OnOk result (self.new ≡ (if names.is_void name.now then self.old else (open_at number name.now ∷ self.old))) }
    {
        if names::is_void(name) {
            return Ok(());
        }
        self.push(number, Text::of(Vec::from_slice(alloc, name)?))
    }

    /// The number of the innermost.
    pub fn innermost(&self) -> Option<u32>
        ensures { result ≡ machine.innermost self.now }
    {
        number_of_last(&self.opens)
    }

    /// Closes what a start tag of this name closes.
    pub fn close_for(&mut self, name: &[u8])
        ensures { self.new ≡ machine.drop_closed name.now self.old }
    {
        close_closed(&mut self.opens, name);
    }

    /// Closes up to the innermost element of this name, `html` as the outermost. Answers whether `html` stays open.
    pub fn close_named(&mut self, at: u64, name: &[u8], html: bool) -> Result<bool, ReadError>
        ensures { Gives (λ left. (self.new, left)) result (machine.without at name.now html self.old) }
    {
        close_up_to(&mut self.opens, at, name, html)
    }

    /// Whether each may end where the text ends. What is open afterwards is left open.
    pub fn may_end(&mut self) -> bool
        ensures { result ≡ machine.all_omit self.old }
    {
        all_may_end(&mut self.opens)
    }
}
