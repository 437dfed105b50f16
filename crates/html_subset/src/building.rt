//! The nodes of a document, as its tokens come.

ghost use Rattle.std.specs.Prelude.{◌≡◌, IfOk};
ghost use Rattle.html_grammar.specs.Machine as machine;

use crate::characters::push;
use crate::facts::{
    attributes_of, is_blank, is_doctype, is_end, is_head_element, is_start, is_white, place_of,
};
use crate::fault::ReadError;
use crate::names;
use crate::nodes::{push_head_element, push_outer, push_raw, push_tag, push_words};
use crate::stack::Stack;
use html_grammar::{Attribute, DomNode, Fault, Piece, Spelled, Stage, Tag, Token};
use mc_base::{List, Text};
use std::alloc::{AllocError, Global};

/// The nodes so far, text that goes on, the elements whose end is to come from the body inwards, whether the end of
/// `html` is to come, and how many elements stand one inside another at most.
#[derive(Drop)]
pub struct Builder {
    pub stage: Stage,
    pub nodes: Vec<DomNode>,
    pub words: Option<Piece>,
    pub opens: Stack,
    pub html: bool,
    pub deepest: usize,
}

/// The nodes of a whole document, and how many elements stand one inside another at most.
#[derive(Drop)]
pub struct Finished {
    pub nodes: Vec<DomNode>,
    pub deepest: usize,
}

/// The text that goes on with one more character.
fn spoken(
    alloc: Global,
    words: Option<Piece>,
    at: u64,
    character: char,
) -> Result<Piece, AllocError>
    ensures { IfOk result (λ p. p ≡ machine.spoken words at character) }
{
    match words {
        Some(piece) => {
            let Piece { at, text } = piece;
            let mut text = text;
            push(&mut text, character)?;
            Ok(Piece { at, text })
        }
        None => {
            let mut text = Text::new(alloc);
            push(&mut text, character)?;
            Ok(Piece { at, text })
        }
    }
}

impl Builder {
    ghost use Rattle.std.specs.Prelude.{◌≡◌, ◌+◌, ◌<◌, ◌≤◌, ◌^◌, length, OnOk, IfOk, [], true, Bool};
    ghost use Rattle.html_grammar.specs.Machine as machine;
    ghost use Rattle.html_subset.specs.Gives.{Gives};
    ghost use Rattle.html_subset.specs.Building.{state_of, at_rest, built_of};

    pub fn new(alloc: Global) -> Self
        ensures state { state_of result ≡ machine.opening_state }
        ensures few { length result.nodes.items ≡ 0 }
    {
        Builder {
            stage: Stage::Opening { doctype: false },
            nodes: Vec::new(alloc),
            words: None,
            opens: Stack::new(alloc),
            html: true,
            deepest: 0,
        }
    }

    /// Ends the text that goes on.
    fn flush(&mut self) -> Result<(), AllocError>
        ensures state { OnOk result (state_of self.new ≡ at_rest (state_of self.old)) }
        ensures few { OnOk result (length self.new.nodes.items ≤ length self.old.nodes.items + 1) }
    {
        let parent = self.opens.innermost();
        match self.words.take() {
            Some(piece) => push_words(&mut self.nodes, parent, piece),
            None => Ok(()),
        }
    }

    /// A start tag in the body.
    #[tactic(auto, unfolding(html_grammar::specs::Machine::step))]
    fn start(&mut self, alloc: Global, tag: Tag) -> Result<(), ReadError>
        requires { length self.old.nodes.items + 2 < 2 ^ 32 }
        ensures state { Gives (λ _. state_of self.new) result (machine.step (state_of self.old) (Token.Start tag)) }
        ensures few { OnOk result (length self.new.nodes.items ≤ length self.old.nodes.items + 2) }
    {
        self.flush()?;
        self.opens.close_for(tag.name.as_slice());
        let Some(parent) = self.opens.innermost() else {
            return Err(ReadError::Fault(Fault {
                at: tag.at,
                rule: 8,
            }));
        };
        if names::is_outer(tag.name.as_slice()) {
            return Err(ReadError::Fault(Fault {
                at: tag.at,
                rule: 8,
            }));
        }
        self.deepest = self.deepest.max(self.opens.depth());
        let number = self.nodes.len() as u32;
        self.opens.open(alloc, number, tag.name.as_slice())?;
        push_tag(&mut self.nodes, Some(parent), tag)?;
        Ok(())
    }

    /// An element of raw text in the body.
    #[tactic(auto, unfolding(html_grammar::specs::Machine::step))]
    fn raw(&mut self, tag: Tag, text: Option<Piece>) -> Result<(), ReadError>
        requires { length self.old.nodes.items + 3 < 2 ^ 32 }
        ensures state { Gives (λ _. state_of self.new) result (machine.step (state_of self.old) (Token.Raw tag text)) }
        ensures few { OnOk result (length self.new.nodes.items ≤ length self.old.nodes.items + 3) }
    {
        self.flush()?;
        self.opens.close_for(tag.name.as_slice());
        let Some(parent) = self.opens.innermost() else {
            return Err(ReadError::Fault(Fault {
                at: tag.at,
                rule: 8,
            }));
        };
        self.deepest = self.deepest.max(self.opens.depth());
        push_raw(&mut self.nodes, Some(parent), tag, text)?;
        Ok(())
    }

    /// An end tag in the body or after it.
    #[tactic(auto, unfolding(html_grammar::specs::Machine::step))]
    fn end(&mut self, at: u64, name: Text) -> Result<(), ReadError>
        ensures state { Gives (λ _. state_of self.new) result (machine.step (state_of self.old) (Token.End at name)) }
        ensures few { OnOk result (length self.new.nodes.items ≤ length self.old.nodes.items + 1) }
    {
        self.flush()?;
        self.html = self.opens.close_named(at, name.as_slice(), self.html)?;
        Ok(())
    }

    /// A character of text in the body or after it.
    #[tactic(auto, unfolding(html_grammar::specs::Machine::step))]
    fn character(
        &mut self,
        alloc: Global,
        at: u64,
        character: char,
        spelled: Spelled,
    ) -> Result<(), ReadError>
        ensures state { Gives (λ _. state_of self.new) result
            (machine.step (state_of self.old) (Token.Char at character spelled)) }
        ensures few { OnOk result (length self.new.nodes.items ≤ length self.old.nodes.items) }
    {
        if self.opens.innermost().is_none() {
            if is_white(character, spelled) {
                return Ok(());
            }
            return Err(ReadError::Fault(Fault { at, rule: 8 }));
        }
        let words = self.words.take();
        self.words = Some(spoken(alloc, words, at, character)?);
        Ok(())
    }

    /// A token in the body or after it.
    #[tactic(auto, unfolding(html_grammar::specs::Machine::step))]
    fn step(&mut self, alloc: Global, token: Token) -> Result<(), ReadError>
        requires { length self.old.nodes.items + 3 < 2 ^ 32 }
        ensures state { Gives (λ _. state_of self.new) result (machine.step (state_of self.old) token) }
        ensures few { OnOk result (length self.new.nodes.items ≤ length self.old.nodes.items + 3) }
    {
        match token {
            Token::Start { tag } => self.start(alloc, tag),
            Token::Raw { tag, text } => self.raw(tag, text),
            Token::End { at, name } => self.end(at, name),
            Token::Comment { at: _ } => {
                self.flush()?;
                Ok(())
            }
            Token::Doctype { at } => Err(ReadError::Fault(Fault { at, rule: 8 })),
            Token::Char {
                at,
                character,
                spelled,
            } => self.character(alloc, at, character, spelled),
        }
    }

    fn begin_html(
        &mut self,
        alloc: Global,
        at: u64,
        attributes: List<Attribute>,
    ) -> Result<(), AllocError>
        ensures state { OnOk result (state_of self.new ≡ machine.begin_html (state_of self.old) at attributes) }
        ensures few { OnOk result (length self.new.nodes.items ≤ length self.old.nodes.items + 1) }
    {
        push_outer(alloc, &mut self.nodes, None, at, b"html", attributes)?;
        self.words = None;
        self.deepest = self.deepest.max(2);
        self.stage = Stage::BeforeHead;
        Ok(())
    }

    fn begin_head(
        &mut self,
        alloc: Global,
        at: u64,
        attributes: List<Attribute>,
    ) -> Result<(), AllocError>
        ensures state { OnOk result (state_of self.new ≡ machine.begin_head (state_of self.old) at attributes) }
        ensures few { OnOk result (length self.new.nodes.items ≤ length self.old.nodes.items + 1) }
    {
        push_outer(alloc, &mut self.nodes, Some(0), at, b"head", attributes)?;
        self.words = None;
        self.stage = Stage::InHead;
        Ok(())
    }

    fn end_head(&mut self)
        ensures state { state_of self.new ≡ machine.end_head (state_of self.old) }
        ensures few { length self.new.nodes.items ≤ length self.old.nodes.items }
    {
        self.words = None;
        self.stage = Stage::BehindHead;
    }

    fn begin_body(
        &mut self,
        alloc: Global,
        at: u64,
        attributes: List<Attribute>,
    ) -> Result<(), AllocError>
        requires { length self.old.nodes.items < 2 ^ 32 }
        ensures state { OnOk result (state_of self.new ≡ machine.begin_body (state_of self.old) at attributes) }
        ensures few { OnOk result (length self.new.nodes.items ≤ length self.old.nodes.items + 1) }
    {
        let number = self.nodes.len() as u32;
        push_outer(alloc, &mut self.nodes, Some(0), at, b"body", attributes)?;
        self.words = None;
        self.opens = Stack::body(alloc, number)?;
        self.stage = Stage::InBody;
        Ok(())
    }

    fn head_element(&mut self, token: Token) -> Result<(), AllocError>
        requires { length self.old.nodes.items < 2 ^ 32 }
        ensures state { OnOk result (state_of self.new ≡ machine.in_head (state_of self.old) token) }
        ensures few { OnOk result (length self.new.nodes.items ≤ length self.old.nodes.items + 2) }
    {
        push_head_element(&mut self.nodes, token)?;
        self.words = None;
        self.deepest = self.deepest.max(3);
        Ok(())
    }

    /// A token after the head.
    #[tactic(auto, unfolding(html_grammar::specs::Machine::take_behind_head))]
    fn take_behind_head(&mut self, alloc: Global, token: Token) -> Result<(), ReadError>
        requires { length self.old.nodes.items + 4 < 2 ^ 32 }
        ensures state { Gives (λ _. state_of self.new) result (machine.take_behind_head (state_of self.old) token) }
        ensures few { OnOk result (length self.new.nodes.items ≤ length self.old.nodes.items + 4) }
    {
        if is_blank(&token) {
            return Ok(());
        }
        let at = place_of(&token);
        if is_start(&token, b"body") {
            self.begin_body(alloc, at, attributes_of(alloc, token))?;
            return Ok(());
        }
        self.begin_body(alloc, at, List::new(alloc))?;
        self.step(alloc, token)
    }

    /// A token in the head.
    #[tactic(auto, unfolding(html_grammar::specs::Machine::take_in_head))]
    fn take_in_head(&mut self, alloc: Global, token: Token) -> Result<(), ReadError>
        requires { length self.old.nodes.items + 4 < 2 ^ 32 }
        ensures state { Gives (λ _. state_of self.new) result (machine.take_in_head (state_of self.old) token) }
        ensures few { OnOk result (length self.new.nodes.items ≤ length self.old.nodes.items + 4) }
    {
        if is_blank(&token) {
            return Ok(());
        }
        if is_head_element(&token) {
            self.head_element(token)?;
            return Ok(());
        }
        if is_end(&token, b"head") {
            self.end_head();
            return Ok(());
        }
        self.end_head();
        self.take_behind_head(alloc, token)
    }

    /// A token between `html` and `head`.
    #[tactic(auto, unfolding(html_grammar::specs::Machine::take_before_head))]
    fn take_before_head(&mut self, alloc: Global, token: Token) -> Result<(), ReadError>
        requires { length self.old.nodes.items + 5 < 2 ^ 32 }
        ensures state { Gives (λ _. state_of self.new) result (machine.take_before_head (state_of self.old) token) }
        ensures few { OnOk result (length self.new.nodes.items ≤ length self.old.nodes.items + 5) }
    {
        if is_blank(&token) {
            return Ok(());
        }
        let at = place_of(&token);
        if is_start(&token, b"head") {
            self.begin_head(alloc, at, attributes_of(alloc, token))?;
            return Ok(());
        }
        self.begin_head(alloc, at, List::new(alloc))?;
        self.take_in_head(alloc, token)
    }

    /// A token before `html`.
    #[tactic(auto, unfolding(html_grammar::specs::Machine::take_opening))]
    fn take_opening(&mut self, alloc: Global, doctype: bool, token: Token) -> Result<(), ReadError>
        requires { length self.old.nodes.items + 6 < 2 ^ 32 }
        ensures state { Gives (λ _. state_of self.new) result (machine.take_opening doctype (state_of self.old) token) }
        ensures few { OnOk result (length self.new.nodes.items ≤ length self.old.nodes.items + 6) }
    {
        if is_blank(&token) {
            return Ok(());
        }
        if !doctype && is_doctype(&token) {
            self.stage = Stage::Opening { doctype: true };
            return Ok(());
        }
        let at = place_of(&token);
        if is_start(&token, b"html") {
            self.begin_html(alloc, at, attributes_of(alloc, token))?;
            return Ok(());
        }
        self.begin_html(alloc, at, List::new(alloc))?;
        self.take_before_head(alloc, token)
    }

    /// The next token.
    #[tactic(auto, unfolding(html_grammar::specs::Machine::take_token))]
    pub fn take(&mut self, alloc: Global, token: Token) -> Result<(), ReadError>
        requires { length self.old.nodes.items + 6 < 2 ^ 32 }
        ensures state { Gives (λ _. state_of self.new) result (machine.take_token (state_of self.old) token) }
        ensures few { OnOk result (length self.new.nodes.items ≤ length self.old.nodes.items + 6) }
    {
        match self.stage {
            Stage::Opening { doctype } => self.take_opening(alloc, doctype, token),
            Stage::BeforeHead => self.take_before_head(alloc, token),
            Stage::InHead => self.take_in_head(alloc, token),
            Stage::BehindHead => self.take_behind_head(alloc, token),
            Stage::InBody => self.step(alloc, token),
        }
    }

    /// The nodes at the end of a text of so many bytes.
    fn finish(self, size: u64) -> Result<Finished, ReadError>
        ensures { Gives (λ f. built_of f) result (machine.finish size (state_of self)) }
    {
        let mut builder = self;
        builder.flush()?;
        if !builder.opens.may_end() {
            return Err(ReadError::Fault(Fault { at: size, rule: 7 }));
        }
        let Builder {
            stage: _,
            nodes,
            words: _,
            opens: _,
            html: _,
            deepest,
        } = builder;
        Ok(Finished { nodes, deepest })
    }

    /// The nodes at the end of a text of so many bytes, with what is missing of `html`, `head` and `body`.
    #[tactic(auto, unfolding(html_grammar::specs::Machine::conclude))]
    pub fn conclude(self, alloc: Global, size: u64) -> Result<Finished, ReadError>
        requires { length self.nodes.items + 3 < 2 ^ 32 }
        ensures { Gives (λ f. built_of f) result (machine.conclude size (state_of self)) }
    {
        let mut builder = self;
        match builder.stage {
            Stage::Opening { doctype: _ } => {
                builder.begin_html(alloc, size, List::new(alloc))?;
                builder.begin_head(alloc, size, List::new(alloc))?;
                builder.end_head();
                builder.begin_body(alloc, size, List::new(alloc))?;
                builder.finish(size)
            }
            Stage::BeforeHead => {
                builder.begin_head(alloc, size, List::new(alloc))?;
                builder.end_head();
                builder.begin_body(alloc, size, List::new(alloc))?;
                builder.finish(size)
            }
            Stage::InHead => {
                builder.end_head();
                builder.begin_body(alloc, size, List::new(alloc))?;
                builder.finish(size)
            }
            Stage::BehindHead => {
                builder.begin_body(alloc, size, List::new(alloc))?;
                builder.finish(size)
            }
            Stage::InBody => builder.finish(size),
        }
    }
}
