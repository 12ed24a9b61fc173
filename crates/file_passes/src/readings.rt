ghost use Rattle.std.specs.Prelude.{◌≡◌, [], List, IfOk, IsSome, OnOk, OnErr, IsErrOf, ◌⊎◌, ◌∷◌};
ghost use Rattle.std.specs.Option.{option_copied};
ghost use Rattle.cube_outside.specs.Counts.{Rose};
ghost use Rattle.cube_outside.specs.declared.files.Extent.{Extent};
ghost use Rattle.file_passes.specs.Inside.Steps.{IsReadOnce};
ghost use Rattle.file_passes.specs.Pass.{bytes_of, file, files, source_of, Source as SourceOf};
ghost use Rattle.cube_words.specs.Words.{texts_of};

use crate::reading::Reading;
use cube_outside::{Extent, FileFault, Files};
use std::alloc::{AllocError, Global};
use std::collections::BTreeMap;
use std::marker::Model;

/// A file that was read, as it is judged: its name and those of its bytes that were read.
#[derive(Drop)]
pub struct Source<'a> {
    name: &'a str,
    bytes: &'a [u8],
}

impl<'a> Model for Source<'a> {
    ghost use Rattle.std.specs.Prelude.{ℕ, List};

    ghost Value = { List ℕ × List ℕ };

    ghost view = { λ source. (source.name.now, source.bytes.now) };
}

impl<'a> Source<'a> {
    pub fn name(&self) -> &str
        ensures { result.now ≡ self.now.0 }
    {
        self.name
    }

    pub fn bytes(&self) -> &[u8]
        ensures { result.now ≡ self.now.1 }
    {
        self.bytes
    }
}

/// The file of this name among those that were read.
pub fn source_of<'a, 'b>(sources: &'a [Source<'b>], name: &[u8]) -> Option<&'a Source<'b>>
    ensures { option_copied result ≡ source_of sources.now name.now }
{
    sources
        .iter()
        .find(|source| source.name().as_bytes() == name)
}

/// The files that a run has read so far. Contracts see the last one first.
#[derive(Drop)]
pub struct Readings {
    // In the order in which they were read.
    files: Vec<Reading>,
    // The place of each name among the files.
    places: BTreeMap<String, usize>,
}

impl Model for Readings {
    ghost use Rattle.std.specs.Prelude.{ℕ, List};
    ghost use Rattle.file_passes.specs.Inside.Kept.{viewed, AreFound};

    ghost Value = { List (List ℕ × List ℕ) };

    ghost view = { λ readings. viewed readings.files.items };

    ghost invariant = { λ readings. AreFound readings.files.items readings.places };
}

impl Readings {
    pub fn new(alloc: Global) -> Readings
        ensures { result ≡ [] }
    {
        Readings {
            files: Vec::new(alloc),
            places: BTreeMap::new(alloc),
        }
    }

    // The bytes that were read under this name.
    fn bytes(&self, name: &str) -> Option<&[u8]>
        ensures { option_copied result ≡ bytes_of self.now name.now }
    {
        match self.places.get(name) {
            Some(place) => Some(self.files[*place].bytes.as_slice()),
            None => None,
        }
    }

    /// The bytes that were read under this name, or None where none was. A name that is no UTF-8 has none, but the
    /// answer is then out of memory.
    pub fn bytes_of(&self, name: &[u8]) -> Result<Option<&[u8]>, AllocError>
        ensures { IfOk result (λ found. option_copied found ≡ bytes_of self.now name.now) }
    {
        match str::from_utf8(name) {
            Ok(name) => Ok(self.bytes(name)),
            Err(_) => Err(AllocError),
        }
    }

    /// The file of this name, which was read.
    pub fn source<'a>(&'a self, name: &'a str) -> Source<'a>
        requires { IsSome (bytes_of self.now name.now) }
        ensures { (extent : Extent) → (file extent name.now).finds self.now result }
    {
        Source {
            name,
            bytes: self.bytes(name).unwrap(),
        }
    }

    /// The files of these names, all of which were read.
    pub fn sources<'a>(
        &'a self,
        alloc: Global,
        names: &'a [String],
    ) -> Result<Vec<Source<'a>>, AllocError>
        requires { (extent : Extent) × (all : List SourceOf)
            × (files extent (texts_of names.now)).finds self.now all }
        ensures { IfOk result (λ all. (extent : Extent)
            → (files extent (texts_of names.now)).finds self.now all.items) }
    {
        let mut all = Vec::new(alloc);
        for name in names {
            all.push(self.source(name.as_str()))?;
        }
        Ok(all)
    }

    // Keeps a file that was read now.
    fn keep(&mut self, alloc: Global, name: &str, bytes: Vec<u8>) -> Result<(), AllocError>
        ensures kept { OnOk result (self.new ≡ (name.now, bytes.items) ∷ self.old) }
        ensures err { OnErr result (self.new ≡ self.old) }
    {
        let key = String::from_str(alloc, name)?;
        let name = Vec::from_slice(alloc, name.as_bytes())?;
        self.files.reserve(1)?;
        self.places.insert(key, self.files.len())?;
        self.files.push_reserved(Reading { name, bytes });
        Ok(())
    }

    /// Reads the file of this name, as much of it as is asked for, unless it was read before.
    pub(crate) fn read<F: Files>(
        &mut self,
        alloc: Global,
        files: &mut F,
        extent: Extent,
        name: &str,
    ) -> Result<(), FileFault>
        ensures once { OnOk result (IsReadOnce (F.seen files.old).known extent name.now
            self.old self.new (F.seen files.old).asked (F.seen files.new).asked) }
        ensures unread { OnErr result ((bytes_of self.old name.now ≡ None) × (self.new ≡ self.old)) }
        ensures known { (F.seen files.new).known ≡ (F.seen files.old).known }
        ensures failed { IsErrOf result FileFault.Failed → Rose (F.seen files.old).faults (F.seen files.new).faults }
        ensures missed { IsErrOf result FileFault.Failed → (F.seen files.new).missed ≡ name.now }
        ensures asked { IsErrOf result FileFault.Failed
            → (F.seen files.new).asked ≡ name.now ∷ (F.seen files.old).asked }
        ensures at_most { OnErr result (((F.seen files.new).asked ≡ name.now ∷ (F.seen files.old).asked)
            ⊎ ((F.seen files.new).asked ≡ (F.seen files.old).asked)) }
        ensures no_read_failed { IsErrOf result FileFault.Failed
            ⊎ ((F.seen files.new).faults ≡ (F.seen files.old).faults) }
    {
        if self.bytes(name).is_some() {
            return Ok(());
        }
        let bytes = files.read(alloc, name, extent)?;
        self.keep(alloc, name, bytes)?;
        Ok(())
    }
}
