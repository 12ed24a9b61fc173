ghost use Rattle.std.specs.Prelude.{◌≡◌, ◌≢◌, ℕ, ◌⊎◌, List, [], ◌∷◌, ◌++◌, Some, None, OnOk, OnErr, IfOk, IsErrOf};
ghost use Rattle.std.specs.Prelude.{Contains, find, length, map, option_map, reverse};
ghost use Rattle.std.specs.Option.{option_copied};
ghost use Rattle.std.specs.Str.{bytes_eq};
ghost use Rattle.cube_outside.specs.Counts.{one_more, Rose};
ghost use Rattle.cube_outside.specs.Extents.{part_of, IsWithin};
ghost use Rattle.cube_outside.specs.NamedBytes.{bytes_named};
ghost use Rattle.cube_outside.specs.declared.files.FileFault.TheVariants.{Failed, Memory};

use crate::files::{Extent, FileFault, Files};
use std::alloc::{AllocError, Global};

/// Files in memory: pairs of a name and its bytes, where the first pair with a name holds. A read fails at a name that
/// no pair has, and at each call whose number was given to `fail_at`. Calls count from 1.
#[derive(Drop)]
pub struct MemoryFiles {
    pub pairs: Vec<(Vec<u8>, Vec<u8>)>,
    /// The numbers of the calls that fail.
    pub failing: Vec<u64>,
    /// How many reads were called.
    pub calls: u64,
    /// How many of them failed.
    pub count: u64,
    /// The name of the last that failed.
    pub missed: Vec<u8>,
    /// The name that each read asked for, the last one last.
    pub asked: Vec<Vec<u8>>,
}

impl MemoryFiles {
    /// No file, and no call that fails.
    pub fn new(alloc: Global) -> MemoryFiles
        ensures empty { result.pairs.items ≡ [] }
        ensures free { result.failing.items ≡ [] }
        ensures calls { result.calls ≡ 0 }
        ensures faults { result.count ≡ 0 }
        ensures missed { result.missed.items ≡ [] }
        ensures asked { result.asked.items ≡ [] }
    {
        MemoryFiles {
            pairs: Vec::new(alloc),
            failing: Vec::new(alloc),
            calls: 0,
            count: 0,
            missed: Vec::new(alloc),
            asked: Vec::new(alloc),
        }
    }

    /// Puts bytes under a name, in place of those that it had.
    pub fn put(&mut self, name: &str, bytes: &[u8]) -> Result<(), AllocError>
        ensures put { OnOk result (bytes_named self.new.pairs.items name.now ≡ Some bytes.now) }
        ensures others { OnOk result ((other : List ℕ) → other ≢ name.now →
            bytes_named self.new.pairs.items other ≡ bytes_named self.old.pairs.items other) }
        ensures err { OnErr result (self.new.pairs.items ≡ self.old.pairs.items) }
        ensures failing { self.new.failing ≡ self.old.failing }
        ensures calls { self.new.calls ≡ self.old.calls }
        ensures faults { self.new.count ≡ self.old.count }
        ensures missed { self.new.missed ≡ self.old.missed }
        ensures asked { self.new.asked ≡ self.old.asked }
    {
        let alloc = *self.pairs.allocator();
        let pair = (
            Vec::from_slice(alloc, name.as_bytes())?,
            Vec::from_slice(alloc, bytes)?,
        );
        self.pairs.insert(0, pair)?;
        Ok(())
    }

    /// Has the read fail that is called as the given one, counted from 1.
    pub fn fail_at(&mut self, call: u64) -> Result<(), AllocError>
        ensures added { OnOk result (self.new.failing.items ≡ self.old.failing.items ++ call ∷ []) }
        ensures err { OnErr result (self.new.failing.items ≡ self.old.failing.items) }
        ensures pairs { self.new.pairs ≡ self.old.pairs }
        ensures calls { self.new.calls ≡ self.old.calls }
        ensures faults { self.new.count ≡ self.old.count }
        ensures missed { self.new.missed ≡ self.old.missed }
        ensures asked { self.new.asked ≡ self.old.asked }
    {
        self.failing.push(call)?;
        Ok(())
    }

    // Counts a failure at this name, unless there is no memory for the name.
    fn fail(&mut self, alloc: Global, name: &str) -> FileFault
        ensures failed { result ≡ FileFault.Failed →
            (self.new.count ≡ one_more self.old.count) × (self.new.missed.items ≡ name.now) }
        ensures memory { result ≡ FileFault.Failed
            ⊎ (self.new.count ≡ self.old.count) × (self.new.missed ≡ self.old.missed) }
        ensures pairs { self.new.pairs ≡ self.old.pairs }
        ensures failing { self.new.failing ≡ self.old.failing }
        ensures calls { self.new.calls ≡ self.old.calls }
        ensures asked { self.new.asked ≡ self.old.asked }
    {
        let Ok(missed) = Vec::from_slice(alloc, name.as_bytes()) else {
            return FileFault::Memory;
        };
        self.missed = missed;
        self.count = self.count.saturating_add(1);
        FileFault::Failed
    }

    // The first pair with this name.
    fn find(&self, name: &str) -> Option<&(Vec<u8>, Vec<u8>)>
        ensures { option_copied result ≡ find (λ pair. bytes_eq pair.0.items name.now) self.now.pairs.items }
    {
        self.pairs
            .iter()
            .find(|pair| pair.0.as_slice() == name.as_bytes())
    }
}

impl Files for MemoryFiles {
    ghost seen = { λ files. record {
      known = Some (bytes_named files.pairs.items);
      faults = files.count;
      missed = files.missed.items;
      asked = reverse (map (λ name. name.items) files.asked.items);
    } };

    /// Fails exactly at a name that no pair has and at a call that was given to `fail_at`, out of memory aside.
    fn read(&mut self, alloc: Global, name: &str, extent: Extent) -> Result<Vec<u8>, FileFault>
        ensures pairs { self.new.pairs ≡ self.old.pairs }
        ensures failing { self.new.failing ≡ self.old.failing }
        ensures calls { self.new.calls ≡ one_more self.old.calls }

        ensures ok { IfOk result (λ bytes.
            option_map (part_of extent) (bytes_named self.old.pairs.items name.now) ≡ Some bytes.items) }
        ensures passed { OnOk result (¬ Contains self.old.failing.items self.new.calls) }
        ensures cause { IsErrOf result Failed →
            Contains self.old.failing.items self.new.calls ⊎ (bytes_named self.old.pairs.items name.now ≡ None) }
        ensures failed { IsErrOf result Failed → self.new.count ≡ one_more self.old.count }
        ensures name { IsErrOf result Failed → self.new.missed.items ≡ name.now }
        ensures no_read_failed { IsErrOf result Failed
            ⊎ (self.new.count ≡ self.old.count) × (self.new.missed ≡ self.old.missed) }

        // What the trait says.
        ensures known { Some (bytes_named self.new.pairs.items) ≡ Some (bytes_named self.old.pairs.items) }
        ensures bytes { IfOk result (λ bytes.
            option_map (part_of extent) (bytes_named self.old.pairs.items name.now) ≡ Some bytes.items) }
        ensures within { IfOk result (λ bytes. IsWithin extent (length bytes.items)) }
        ensures rose { IsErrOf result Failed → Rose self.old.count self.new.count }
        ensures asked { (reverse (map (λ name. name.items) self.new.asked.items)
            ≡ name.now ∷ reverse (map (λ name. name.items) self.old.asked.items))
            ⊎ IsErrOf result Memory × (reverse (map (λ name. name.items) self.new.asked.items)
            ≡ reverse (map (λ name. name.items) self.old.asked.items)) }
    {
        self.calls = self.calls.saturating_add(1);
        let asked = Vec::from_slice(alloc, name.as_bytes())?;
        self.asked.push(asked)?;
        if self.failing.contains(&self.calls) {
            return Err(self.fail(alloc, name));
        }
        let Some(pair) = self.find(name) else {
            return Err(self.fail(alloc, name));
        };
        Ok(Vec::from_slice(alloc, part_of(&pair.1, extent))?)
    }

    fn faults(&self) -> u64 {
        self.count
    }

    fn missed(&self) -> &[u8] {
        &self.missed
    }
}

// What is read of these bytes.
fn part_of(bytes: &[u8], extent: Extent) -> &[u8]
    ensures part { result.now ≡ part_of extent bytes.now }
    ensures within { IsWithin extent (length result.now) }
{
    match extent {
        Extent::Whole => bytes,
        Extent::Front(most) => &bytes[..most.min(bytes.len())],
    }
}
