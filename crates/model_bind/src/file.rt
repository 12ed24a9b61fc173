ghost use Rattle.std.specs.Prelude.{◌≡◌};

use std::marker::Model;

/// A file of rules that was read: its bytes, and those of its name, by which a refusal names it.
#[derive(Drop)]
pub(crate) struct RuleFile<'a> {
    name: &'a [u8],
    bytes: &'a [u8],
}

impl<'a> Model for RuleFile<'a> {
    ghost use Rattle.model_bind.specs.Files.{RuleFile};

    ghost Value = { RuleFile };

    ghost view = { λ file. record { name = file.name.now; bytes = file.bytes.now } };
}

impl<'a> RuleFile<'a> {
    pub(crate) fn new(name: &'a [u8], bytes: &'a [u8]) -> RuleFile<'a>
        ensures { result ≡ record { name = name.now; bytes = bytes.now } }
    {
        RuleFile { name, bytes }
    }

    pub(crate) fn name(&self) -> &[u8]
        ensures { result.now ≡ self.now.name }
    {
        self.name
    }

    pub(crate) fn bytes(&self) -> &[u8]
        ensures { result.now ≡ self.now.bytes }
    {
        self.bytes
    }

    /// The same file once more.
    pub(crate) fn again(&self) -> RuleFile<'a>
        ensures { result ≡ self.now }
    {
        RuleFile {
            name: self.name,
            bytes: self.bytes,
        }
    }
}
