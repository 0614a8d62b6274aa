//! Words of letters, and lassos: a word, and then a stem and a cycle without end.

ghost use Rattle.std.specs.Prelude.{◌≡◌, ℕ, List, [], ◌∷◌, ◌++◌, OnOk, OnErr};

use lash_io::Memory;
use std::alloc::Global;
use std::marker::Model;

/// A word: a list of letters.
#[derive(Drop)]
pub struct Word {
    letters: Vec<u32>,
}

impl Model for Word {
    ghost Value = { List ℕ };

    ghost view = { λ w. w.letters.items };
}

impl Word {
    /// The empty word.
    pub fn empty(alloc: Global) -> Word
        ensures { result ≡ [] }
    {
        Word {
            letters: Vec::new(alloc),
        }
    }

    /// Puts a letter at the end. The word is unchanged where there is no memory.
    pub fn push(&mut self, letter: u32) -> Result<(), Memory>
        ensures pushed { OnOk result (self.new ≡ self.old ++ letter ∷ []) }
        ensures unchanged { OnErr result (self.new ≡ self.old) }
    {
        match self.letters.push(letter) {
            Ok(()) => Ok(()),
            Err(_) => Err(Memory),
        }
    }

    /// The letters in order.
    pub fn letters(&self) -> &[u32]
        ensures { result.now ≡ self.now }
    {
        self.letters.as_slice()
    }
}

/// A sign vector, a whole word, a point, and a fraction that is a stem and a cycle without end. The sign is below 2 to the number
/// of tracks, each letter below the base to that number, and the cycle is not empty.
#[derive(Drop)]
pub struct Lasso {
    pub sign: u32,
    pub whole: Word,
    pub stem: Word,
    pub cycle: Word,
}
