//! A text in the making, and the state of its draws.

ghost use Rattle.std.specs.Prelude.{◌≡◌, ◌≤◌, ◌<◌, ◌^◌, ◌++◌, [], OnOk};
ghost use Rattle.doc_gen.specs.Document.{
  after_heading,
  after_paragraph,
  after_word,
  document_head,
  document_foot,
  draw_of,
  has_heading,
  heading,
  heading_line,
  letters,
  next_state,
  paragraph,
  state_after,
  word,
  word_state,
  words,
};

use mc_base::Text;
use std::alloc::{AllocError, Global};

const MULTIPLIER: u64 = 6_364_136_223_846_793_005;

const INCREMENT: u64 = 1_442_695_040_888_963_407;

/// The text so far, and the state that the next draw goes on from.
#[derive(Drop)]
pub struct Page {
    text: Text,
    state: u64,
}

impl Page {
    pub fn new(alloc: Global, start: u64) -> Page
        ensures text { result.text ≡ [] }
        ensures state { result.state ≡ start }
    {
        Page {
            text: Text::new(alloc),
            state: start,
        }
    }

    pub fn into_text(self) -> Text
        ensures { result ≡ self.text }
    {
        let Page { text, state: _ } = self;
        text
    }

    pub fn head(&mut self) -> Result<(), AllocError>
        ensures { OnOk result (self.new ≡ record self.old { text = self.old.text ++ document_head }) }
    {
        self.text.extend(
            b"<!DOCTYPE html>\n<title>gen</title>\n<style>div{column-count:3;column-gap:16px}</style>\n<div>\n",
        )
    }

    pub fn foot(&mut self) -> Result<(), AllocError>
        ensures { OnOk result (self.new ≡ record self.old { text = self.old.text ++ document_foot }) }
    {
        self.text.extend(b"</div>\n")
    }

    /// The paragraph of this number, with the heading before it where there is one.
    pub fn part(&mut self, index: u32) -> Result<(), AllocError>
        ensures text { OnOk result (self.new.text ≡ self.old.text
            ++ (heading index self.old.state ++ paragraph (after_heading index self.old.state))) }
        ensures state { OnOk result (self.new.state ≡ after_paragraph (after_heading index self.old.state)) }
    {
        self.heading(index)?;
        self.paragraph()
    }

    #[tactic(auto, unfolding(crate::specs::Document::heading, crate::specs::Document::after_heading))]
    fn heading(&mut self, index: u32) -> Result<(), AllocError>
        ensures text { OnOk result (self.new.text ≡ self.old.text ++ heading index self.old.state) }
        ensures state { OnOk result (self.new.state ≡ after_heading index self.old.state) }
    {
        if !is_headed(index) {
            return Ok(());
        }
        self.heading_line()
    }

    fn heading_line(&mut self) -> Result<(), AllocError>
        ensures text { OnOk result (self.new.text ≡ self.old.text ++ heading_line self.old.state) }
        ensures state { OnOk result (self.new.state ≡ word_state 3 self.old.state) }
    {
        self.text.extend(b"<h2 style=\"column-span:all\">")?;
        self.words(3)?;
        self.text.extend(b"</h2>\n")?;
        Ok(())
    }

    #[tactic(auto, unfolding(crate::specs::Document::paragraph, crate::specs::Document::after_paragraph))]
    fn paragraph(&mut self) -> Result<(), AllocError>
        ensures text { OnOk result (self.new.text ≡ self.old.text ++ paragraph self.old.state) }
        ensures state { OnOk result (self.new.state ≡ after_paragraph self.old.state) }
    {
        self.text.extend(b"<p>")?;
        let count = 20 + self.draw() % 60;
        self.words(count)?;
        self.text.extend(b"</p>\n")
    }

    #[tactic(auto, using(crate::proofs::Steps::word_steps))]
    fn words(&mut self, count: u64) -> Result<(), AllocError>
        requires { 1 ≤ count }
        ensures text { OnOk result (self.new.text ≡ self.old.text ++ words count self.old.state) }
        ensures state { OnOk result (self.new.state ≡ word_state count self.old.state) }
    {
        self.word()?;
        for _ in 1..count {
            self.text.push(b' ')?;
            self.word()?;
        }
        Ok(())
    }

    #[tactic(auto, unfolding(crate::specs::Document::word, crate::specs::Document::after_word))]
    fn word(&mut self) -> Result<(), AllocError>
        ensures text { OnOk result (self.new.text ≡ self.old.text ++ word self.old.state) }
        ensures state { OnOk result (self.new.state ≡ after_word self.old.state) }
    {
        let length = 1 + self.draw() % 9;
        self.letters(length)
    }

    #[tactic(auto, using(crate::proofs::Steps::letter_steps))]
    fn letters(&mut self, count: u64) -> Result<(), AllocError>
        ensures text { OnOk result (self.new.text ≡ self.old.text ++ letters count self.old.state) }
        ensures state { OnOk result (self.new.state ≡ state_after count self.old.state) }
    {
        for _ in 0..count {
            let letter = b'a' + (self.draw() % 26) as u8;
            self.text.push(letter)?;
        }
        Ok(())
    }

    #[tactic(auto, using(crate::proofs::Steps::next_is), unfolding(crate::specs::Document::draw_of))]
    fn draw(&mut self) -> u64
        ensures value { result ≡ draw_of self.old.state }
        ensures moved { self.new ≡ record self.old { state = next_state self.old.state } }
        ensures small { result < 2 ^ 31 }
    {
        self.state = self.state.wrapping_mul(MULTIPLIER).wrapping_add(INCREMENT);
        self.state >> 33
    }
}

#[tactic(auto, unfolding(crate::specs::Document::has_heading))]
fn is_headed(index: u32) -> bool
    ensures { result ≡ has_heading index }
{
    index != 0 && index % 16 == 0
}
