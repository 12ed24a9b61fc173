ghost use Rattle.std.specs.Prelude.{◌≡◌, ◌<◌, ◌↔◌, [], not, position, length, is_some};
ghost use Rattle.std.specs.Prelude.{IfOk, IfSome, OnOk, OnErr, IsSome};
ghost use Rattle.std.specs.List.{list_any, slice_get, IsDistinct};
ghost use Rattle.std.specs.Option.{option_copied};
ghost use Rattle.lists.specs.Keys.{insert_key};

use crate::TableKeys;
use std::alloc::{AllocError, Global};
use std::collections::HashMap;
use std::hash::Hash;
use std::marker::Model;

/// Keys, each once. Contracts see the list of the keys.
#[derive(Drop)]
pub struct Numbered<K: Eq + Hash> {
    keys: Vec<K>,
    numbers: HashMap<K, usize, TableKeys>,
}

impl<K: Eq + Hash> Model for Numbered<K> {
    ghost use Rattle.std.specs.Prelude.{List};
    ghost use Rattle.lists.specs.Inside.Numbers.{AreNumbers};

    ghost Value = { List K };

    ghost view = { λ n. n.keys.items };

    ghost invariant = { λ n. AreNumbers K.eq n.keys.items n.numbers };
}

impl<K: Eq + Hash + Drop> Numbered<K> {
    /// No keys yet.
    pub fn new(alloc: Global, table: TableKeys) -> Self
        ensures { result ≡ [] }
    {
        Numbered {
            keys: Vec::new(alloc),
            numbers: HashMap::with_hasher(alloc, table),
        }
    }

    /// How many keys there are.
    pub fn len(&self) -> usize
        ensures len { result ≡ length self.now }
        ensures unique { IsDistinct K.eq self.now }
    {
        self.keys.len()
    }

    /// The key of this number.
    pub fn get_index(&self, number: usize) -> Option<&K>
        ensures key { option_copied result ≡ slice_get self.now number }
        ensures found { IsSome result ↔ (number < length self.now) }
    {
        self.keys.get(number)
    }

    /// The number of the key that equals this one, where there is one.
    pub fn get_index_of(&self, key: &K) -> Option<usize>
        ensures index { result ≡ position (K.eq key.now) self.now }
        ensures found { is_some result ≡ list_any (K.eq key.now) self.now }
        ensures within { IfSome result (λ number. number < length self.now) }
    {
        match self.numbers.get(key) {
            Some(number) => Some(*number),
            None => None,
        }
    }

    /// Whether a key equals this one.
    pub fn contains(&self, key: &K) -> bool
        ensures { result ≡ list_any (K.eq key.now) self.now }
    {
        self.get_index_of(key).is_some()
    }

    /// Adds a key as the last, of which a copy is given too. A key that equals an earlier one isn't added.
    pub fn insert(&mut self, key: K, copy: K) -> Result<bool, AllocError>
        requires { copy ≡ key }
        ensures added { IfOk result (λ added. added ≡ not (list_any (K.eq key) self.old)) }
        ensures keys { OnOk result (self.new ≡ insert_key K.eq self.old key) }
        ensures unique { IsDistinct K.eq self.new }
        ensures err { OnErr result (self.new ≡ self.old) }
    {
        if self.contains(&key) {
            return Ok(false);
        }
        let number = self.keys.len();
        self.keys.reserve(1)?;
        self.numbers.insert(copy, number)?;
        self.keys.push_reserved(key);
        Ok(true)
    }
}
