ghost use Rattle.std.specs.Prelude.{◌≡◌, ◌++◌, ◌∷◌, [], OnOk, OnErr};
ghost use Rattle.std.specs.Option.{option_copied};
ghost use Rattle.user_text.specs.UserText.{is_set, set_to};

use crate::command::ParamText;
use lists::ListOf;
use std::alloc::{AllocError, Global};
use std::marker::Model;
use word_table::WordTable;

/// The parameters of a load, in the order of the text: words, and what each is set to. Contracts see the list of them.
#[derive(Drop)]
pub struct LoadParams {
    pairs: Vec<(ListOf<u8>, ParamText)>,
    /// Where each word stands.
    words: WordTable,
}

impl Model for LoadParams {
    ghost use Rattle.std.specs.Prelude.{◌≡◌, ℕ, List, map};
    ghost use Rattle.user_text.specs.declared.command.ParamText.{ParamText};

    ghost Value = { List (List ℕ × ParamText) };

    ghost view = { λ params. params.pairs.items };

    ghost invariant = { λ params. params.words ≡ map (λ pair. pair.0) params.pairs.items };
}

impl LoadParams {
    /// No parameters yet.
    pub fn new(alloc: Global) -> LoadParams
        ensures { result ≡ [] }
    {
        LoadParams {
            pairs: Vec::new(alloc),
            words: WordTable::new(alloc),
        }
    }

    /// Whether a parameter of this word is among these.
    pub fn is_set(&self, word: &[u8]) -> bool
        ensures { result ≡ is_set self.now word.now }
    {
        self.get(word).is_some()
    }

    /// What the first parameter of this word is set to, if there is one.
    pub fn get(&self, word: &[u8]) -> Option<&ParamText>
        ensures { option_copied result ≡ set_to self.now word.now }
    {
        match self.words.place_of(word) {
            Some(place) => Some(&self.pairs[place].1),
            None => None,
        }
    }

    /// Adds a parameter as the last: its word, and what that is set to.
    pub fn push(&mut self, alloc: Global, param: (ListOf<u8>, ParamText)) -> Result<(), AllocError>
        ensures params { OnOk result (self.new ≡ self.old ++ param ∷ []) }
        ensures err { OnErr result (self.new ≡ self.old) }
    {
        self.pairs.reserve(1)?;
        self.words.push(alloc, param.0.as_slice())?;
        self.pairs.push_reserved(param);
        Ok(())
    }

    /// The parameters: words, and what each is set to.
    pub fn as_slice(&self) -> &[(ListOf<u8>, ParamText)]
        ensures { result.now ≡ self.now }
    {
        self.pairs.as_slice()
    }
}
