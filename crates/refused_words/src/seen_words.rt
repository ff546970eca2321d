//! Words that were seen.

use index_spaces::NoMemory;
use indexmap::IndexSet;
use std::alloc::Global;
use std::marker::Model;

/// Words, seen as a list of them.
#[derive(Drop)]
pub(crate) struct SeenWords<'a> {
    words: IndexSet<&'a [u8]>,
}

impl<'a> Model for SeenWords<'a> {
    ghost use Rattle.std.specs.Prelude.{ℕ, List, map};

    ghost Value = { List (List ℕ) };

    ghost view = { λ a. map (λ w. w.now) a.words.keys };
}

impl<'a> SeenWords<'a> {
    ghost use Rattle.std.specs.Prelude.{◌≡◌, ◌||◌, ℕ, List, [], IfOk};
    ghost use Rattle.std.specs.List.{list_any};
    ghost use Rattle.std.specs.Str.{bytes_eq};

    /// No word.
    pub(crate) fn new(alloc: Global) -> SeenWords<'a>
        ensures { result ≡ [] }
    {
        SeenWords {
            words: IndexSet::new(alloc),
        }
    }

    /// Whether a word is among them; else it is put there.
    pub(crate) fn add(&mut self, word: &'a [u8]) -> Result<bool, NoMemory>
        ensures there { IfOk result (λ b. b ≡ list_any (bytes_eq word.now) self.old) }
        ensures all { IfOk result (λ b. (w : List ℕ) → list_any (bytes_eq w) self.new ≡ (bytes_eq word.now w || list_any (bytes_eq w) self.old)) }
    {
        let Ok(added) = self.words.insert(word) else {
            return Err(NoMemory);
        };
        Ok(!added)
    }
}
