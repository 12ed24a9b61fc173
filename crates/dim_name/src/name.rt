ghost use Rattle.std.specs.Prelude.{◌≡◌, false, not, ◌↔◌, map, nat_eq, IfOk, OnOk, IsErrOf, IsTrue};
ghost use Rattle.std.proofs.Common.{rules};
ghost use Rattle.std.specs.Char.{is_ascii_control};
ghost use Rattle.std.specs.List.{list_all, list_any};
ghost use Rattle.std.specs.Cmp.{on_equiv, on_per, partial_equiv_from_equiv};
ghost use Rattle.std.specs.Cmp.Lexicographic.{nat_list_eq_equiv};
ghost use Rattle.std.specs.Cmp.Rules.{hashing};
ghost use Rattle.std.specs.Hash as fed;
ghost use Rattle.dim_name.specs.Name.{is_name, is_not_space, is_same_name, key_of};

use std::alloc::{AllocError, Global};
use std::hash::{Hash, Hasher};
use std::marker::Model;

/// Why a text is no name.
#[derive(Debug, Drop)]
pub enum NameFault {
    /// The text is empty or of spaces alone, or has a byte below 0x20 or the byte 0x7F.
    NotAName,
    /// Out of memory.
    Memory,
}

impl From<AllocError> for NameFault {
    ghost use Rattle.std.specs.Prelude.{◌≡◌};
    ghost use Rattle.dim_name.specs.declared.name.NameFault.TheVariants.{Memory};

    ghost from_gives = { λ _ e. e ≡ Memory };

    fn from(_: AllocError) -> NameFault {
        NameFault::Memory
    }
}

/// The name of a dimension, an element, an attribute or a cube. Names that differ only in spaces and in the case of
/// `A` to `Z` are the same, as in TM1. Bytes from 0x80 up are compared as they are (our own rule).
#[derive(Debug, Drop)]
pub struct Name {
    shown: Vec<u8>,
    key: Vec<u8>,
}

impl Model for Name {
    ghost use Rattle.std.specs.Prelude.{◌≡◌, ℕ, List, IsTrue};
    ghost use Rattle.dim_name.specs.Name.{is_name, key_of};

    ghost Value = { List ℕ };

    ghost view = { λ n. n.shown.items };

    ghost invariant = { λ n. IsTrue (is_name n.shown.items) × (n.key.items ≡ key_of n.shown.items) };
}

impl Name {
    /// Takes a text as a name.
    pub fn new(alloc: Global, text: &[u8]) -> Result<Name, NameFault>
        ensures made { IfOk result (λ name. name ≡ text.now) }
        ensures is_name { OnOk result (IsTrue (is_name text.now)) }
        ensures not_a_name { IsErrOf result NameFault.NotAName ↔ (is_name text.now ≡ false) }
    {
        if !is_name(text) {
            return Err(NameFault::NotAName);
        }
        let key = key_bytes(alloc, text)?;
        let shown = Vec::from_slice(alloc, text)?;
        Ok(Name { shown, key })
    }

    /// The name as it was written.
    pub fn shown(&self) -> &[u8]
        ensures value { result.now ≡ self.now }
        ensures is_name { IsTrue (is_name self.now) }
    {
        &self.shown
    }

    /// The name without spaces and with `A` to `Z` lowered: two names are the same where their keys agree.
    pub fn key(&self) -> &[u8]
        ensures { result.now ≡ key_of self.now }
    {
        &self.key
    }
}

fn is_name(text: &[u8]) -> bool
    ensures { result ≡ is_name text.now }
{
    is_printable(text) && is_visible(text)
}

fn is_printable(text: &[u8]) -> bool
    ensures { result ≡ list_all (λ byte. not (is_ascii_control byte)) text.now }
{
    text.iter().all(|byte| !byte.is_ascii_control())
}

fn is_visible(text: &[u8]) -> bool
    ensures { result ≡ list_any is_not_space text.now }
{
    text.iter().any(|byte| *byte != b' ')
}

fn key_bytes(alloc: Global, text: &[u8]) -> Result<Vec<u8>, AllocError>
    ensures { IfOk result (λ key. key.items ≡ key_of text.now) }
{
    text.iter()
        .filter(|byte| **byte != b' ')
        .map(|byte| byte.to_ascii_lowercase())
        .collect(alloc)
}

impl PartialEq for Name {
    ghost eq = { is_same_name };

    ghost laws = { on_per key_of (partial_equiv_from_equiv nat_list_eq_equiv) };

    fn eq(&self, other: &Name) -> bool {
        self.key() == other.key()
    }
}

impl Eq for Name {
    ghost laws = { on_equiv key_of nat_list_eq_equiv };
}

impl Hash for Name {
    ghost hash_input = { λ name. fed.slice fed.u8 (key_of name) };

    ghost respects_eq = { Prim.search (hashing, rules) };

    fn hash<H: Hasher>(&self, state: &mut H) {
        self.key().hash(state);
    }
}
