ghost use Rattle.std.specs.Prelude.{◌≡◌, IfOk};
ghost use Rattle.script_values.specs.Values.{trimmed};

use crate::wanted::trimmed;
use lists::ListOf;
use std::alloc::{AllocError, Global};
use std::marker::Model;

/// Where the bytes of a text are.
#[derive(Drop)]
pub(crate) enum Bytes<'a> {
    Borrowed(&'a [u8]),
    Owned(ListOf<u8>),
}

/// A text. What stands in the script, in a variable or in the record is borrowed.
#[derive(Drop)]
pub struct Text<'a> {
    bytes: Bytes<'a>,
}

impl<'a> Model for Text<'a> {
    ghost use Rattle.std.specs.Prelude.{ℕ, List};
    ghost use Rattle.script_values.specs.Inside.Letters.{letters};

    ghost Value = { List ℕ };

    ghost view = { λ text. letters text.bytes };
}

impl<'a> Text<'a> {
    pub fn borrowed(bytes: &'a [u8]) -> Text<'a>
        ensures { result ≡ bytes.now }
    {
        Text {
            bytes: Bytes::Borrowed(bytes),
        }
    }

    pub fn owned(bytes: Vec<u8>) -> Text<'a>
        ensures { result ≡ bytes.items }
    {
        Text {
            bytes: Bytes::Owned(ListOf::new(bytes)),
        }
    }

    pub fn as_slice(&self) -> &[u8]
        ensures { result.now ≡ self.now }
    {
        match &self.bytes {
            Bytes::Borrowed(bytes) => bytes,
            Bytes::Owned(bytes) => bytes.as_slice(),
        }
    }

    /// Without the spaces and tabs at its ends. What is borrowed isn't copied.
    pub(crate) fn trimmed(self, alloc: Global) -> Result<Text<'a>, AllocError>
        ensures { IfOk result (λ text. text ≡ trimmed self.entry) }
    {
        match self.bytes {
            Bytes::Borrowed(bytes) => Ok(Text::borrowed(trimmed(bytes))),
            Bytes::Owned(bytes) => {
                let rest = Vec::from_slice(alloc, trimmed(bytes.as_slice()))?;
                Ok(Text::owned(rest))
            }
        }
    }

    /// The bytes, which are copied where they are borrowed.
    pub fn into_list(self, alloc: Global) -> Result<ListOf<u8>, AllocError>
        ensures { IfOk result (λ bytes. bytes ≡ self.entry) }
    {
        match self.bytes {
            Bytes::Borrowed(bytes) => Ok(ListOf::new(Vec::from_slice(alloc, bytes)?)),
            Bytes::Owned(bytes) => Ok(bytes),
        }
    }
}
