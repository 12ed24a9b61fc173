ghost use Rattle.std.specs.Prelude.{◌≡◌, ◌++◌, ◌∷◌, ℕ, List, [], length, position, bytes_eq, IfOk, OnOk, OnErr};
ghost use Rattle.std.specs.BTreeMap.{IsUnchanged};
ghost use Rattle.std.specs.List.{list_any};
ghost use Rattle.word_table.specs.Inside.Places.{ArePlaces};

use lists::ListOf;
use std::alloc::{AllocError, Global};
use std::collections::BTreeMap;
use std::marker::Model;

/// Words in the order in which they came. Contracts see the list of the words.
#[derive(Drop)]
pub struct WordTable {
    words: Vec<ListOf<u8>>,
    /// The first place of each word.
    places: BTreeMap<Vec<u8>, usize>,
}

impl Model for WordTable {
    ghost use Rattle.std.specs.Prelude.{ℕ, List};
    ghost use Rattle.word_table.specs.Inside.Places.{ArePlaces};

    ghost Value = { List (List ℕ) };

    ghost view = { λ table. table.words.items };

    ghost invariant = { λ table. ArePlaces table.words.items table.places };
}

/// Adds the place of a word that is the last.
fn note(
    alloc: Global,
    places: &mut BTreeMap<Vec<u8>, usize>,
    word: &[u8],
    place: usize,
) -> Result<(), AllocError>
    ensures noted { OnOk result ((words : List (List ℕ)) → ArePlaces words places.old → length words ≡ place
        → ArePlaces (words ++ word.now ∷ []) places.new) }
    ensures err { OnErr result (IsUnchanged places.old places.new) }
{
    if places.contains_key(word) {
        return Ok(());
    }
    let word = Vec::from_slice(alloc, word)?;
    places.insert(word, place)?;
    Ok(())
}

impl WordTable {
    /// No words yet.
    pub fn new(alloc: Global) -> WordTable
        ensures { result ≡ [] }
    {
        WordTable {
            words: Vec::new(alloc),
            places: BTreeMap::new(alloc),
        }
    }

    /// How many words there are.
    pub fn len(&self) -> usize
        ensures { result ≡ length self.now }
    {
        self.words.len()
    }

    /// The first place of a word, from 0, where it is among the words.
    pub fn place_of(&self, word: &[u8]) -> Option<usize>
        ensures { result ≡ position (λ other. bytes_eq other word.now) self.now }
    {
        match self.places.get(word) {
            Some(place) => Some(*place),
            None => None,
        }
    }

    /// Whether a word is among the words.
    pub fn contains(&self, word: &[u8]) -> bool
        ensures { result ≡ list_any (λ other. bytes_eq other word.now) self.now }
    {
        self.place_of(word).is_some()
    }

    /// Adds a word as the last.
    pub fn push(&mut self, alloc: Global, word: &[u8]) -> Result<(), AllocError>
        ensures words { OnOk result (self.new ≡ self.old ++ word.now ∷ []) }
        ensures err { OnErr result (self.new ≡ self.old) }
    {
        let kept = Vec::from_slice(alloc, word)?;
        self.words.reserve(1)?;
        note(alloc, &mut self.places, word, self.words.len())?;
        self.words.push_reserved(ListOf::new(kept));
        Ok(())
    }

    /// The words.
    pub fn into_words(self) -> ListOf<ListOf<u8>>
        ensures { result ≡ self }
    {
        ListOf::new(self.words)
    }
}
