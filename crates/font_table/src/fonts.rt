//! Faces, and what a layout asks of them.

use crate::choice;
use mc_base::{List, Text, Units};
use std::marker::Model;

/// The number of a face in its table, from 0.
pub type FaceId = u32;

/// What a character is wide, in thousandths of the font size.
#[derive(Clone, Copy)]
pub struct Advance {
    pub ch: char,
    pub amount: u32,
}

/// A face. Its ascent, descent and advances are in thousandths of the font size.
#[derive(Drop)]
pub struct Face {
    pub name: Text,
    pub weight: u32,
    pub italic: bool,
    pub ascent: u32,
    pub descent: u32,
    /// What a character without an advance of its own is wide.
    pub default_advance: u32,
    /// The characters with an advance of their own, their codes rising.
    pub advances: List<Advance>,
}

/// The faces of a metrics table: at least one, in the order of the table.
#[derive(Drop)]
pub struct Fonts {
    faces: List<Face>,
}

impl Model for Fonts {
    ghost use Rattle.std.specs.Prelude.{List as Items};
    ghost use Rattle.font_table.specs.declared.fonts.Face.{Face as OneFace};
    ghost use Rattle.font_table.specs.Sound.{IsSound};

    ghost Value = { Items OneFace };

    ghost view = { λ f. f.faces };

    ghost invariant = { λ f. IsSound f.faces };
}

impl Fonts {
    ghost use Rattle.std.specs.Prelude.{◌≡◌};
    ghost use Rattle.font_table.specs.Sound.{IsSound};

    pub(crate) fn of(faces: List<Face>) -> Self
        requires { IsSound faces }
        ensures { result ≡ faces }
    {
        Fonts { faces }
    }
}

impl Fonts {
    ghost use Rattle.std.specs.Prelude.{◌≡◌, ◌<◌, ◌≤◌, ◌*◌, ◌^◌, length};
    ghost use Rattle.font_table.specs.Choice.{chosen, face_of, advance_of, scaled};

    /// The face of the first of these families that the table has: its first face of this style, and of a weight of at
    /// least 600 exactly where the asked weight is, else its first face. Without such a family it is the table's first
    /// face. Names compare without ASCII case, and a blank in a family's name counts as `-`.
    pub fn face(&self, families: &[Text], weight: u32, italic: bool) -> FaceId
        ensures choice { result ≡ chosen self.now families.now weight italic }
        ensures known { result < length self.now }
    {
        choice::face(self.faces.as_slice(), families, weight, italic)
    }

    /// How wide a character is in a face at a font size: its advance, or the face's default, times the size, rounded down
    /// to units. The face is one of the table, and the size at most 2^32 units.
    pub fn advance(&self, face: FaceId, ch: char, size: Units) -> Units
        requires known { face < length self.now }
        requires size { size ≤ 2 ^ 32 }
        ensures value { result ≡ scaled (advance_of (face_of self.now face) ch) size }
        ensures most { result ≤ 10 * size }
    {
        choice::advance(&self.faces.as_slice()[face as usize], ch, size)
    }

    /// The ascent of a face at a font size, rounded down to units, under the conditions of `advance`.
    pub fn ascent(&self, face: FaceId, size: Units) -> Units
        requires known { face < length self.now }
        requires size { size ≤ 2 ^ 32 }
        ensures value { result ≡ scaled (face_of self.now face).ascent size }
        ensures most { result ≤ 10 * size }
    {
        choice::ascent(&self.faces.as_slice()[face as usize], size)
    }

    /// The descent of a face at a font size, rounded down to units, under the conditions of `advance`.
    pub fn descent(&self, face: FaceId, size: Units) -> Units
        requires known { face < length self.now }
        requires size { size ≤ 2 ^ 32 }
        ensures value { result ≡ scaled (face_of self.now face).descent size }
        ensures most { result ≤ 10 * size }
    {
        choice::descent(&self.faces.as_slice()[face as usize], size)
    }
}
