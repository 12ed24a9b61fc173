ghost use Rattle.std.specs.Prelude.{◌≡◌, ℕ, ◌*◌, ◌<◌, ◌≤◌, ◌+◌, [], None, IfOk, vec_len, map, reverse};
ghost use Rattle.std.specs.Bool.{OnTrue, OnFalse};
ghost use Rattle.cube_outside.specs.Extents.{IsWithin};

use crate::files::{Extent, FileFault, Files};
use std::alloc::Global;
use std::fs;
use std::io::Read;

/// How many bytes of a file are asked for at once.
pub const CHUNK: usize = 8192;

/// How many times a file is asked for bytes at most. Each time but the last gives at least one byte; a file that has
/// more to give after these is a fault.
pub const MAX_TURNS: u64 = 1 << 32;

/// The files of the system. Nothing is known of what they hold.
#[derive(Drop)]
pub struct HostFiles<'a, R> {
    rt: &'a R,
    count: u64,
    missed: Vec<u8>,
    // Each name that was asked for, the last one last.
    asked: Vec<Vec<u8>>,
}

impl<'a, R: std::rt::Files> HostFiles<'a, R> {
    pub fn new(alloc: Global, rt: &'a R) -> HostFiles<'a, R>
        ensures faults { (⟦<HostFiles<'a, R> as Files>⟧.seen result).faults ≡ 0 }
        ensures missed { (⟦<HostFiles<'a, R> as Files>⟧.seen result).missed ≡ [] }
        ensures asked { (⟦<HostFiles<'a, R> as Files>⟧.seen result).asked ≡ [] }
    {
        HostFiles {
            rt,
            count: 0,
            missed: Vec::new(alloc),
            asked: Vec::new(alloc),
        }
    }

    // The bytes of a file or its front, or a failure, which nothing has counted yet.
    fn read_part(&self, alloc: Global, name: &str, extent: Extent) -> Result<Vec<u8>, FileFault>
        ensures chunks { IfOk result (λ bytes. vec_len bytes < MAX_TURNS * CHUNK) }
        ensures within { IfOk result (λ bytes. IsWithin extent (vec_len bytes)) }
    {
        let Ok(mut file) = fs::open(self.rt, name) else {
            return Err(FileFault::Failed);
        };
        let most = most_of(extent);
        let mut bytes = Vec::new(alloc);
        for turns in 0..MAX_TURNS {
            // Each turn so far took at least one byte.
            prove!(turns <= bytes.len() as u64);
            if !read_more(&mut file, &mut bytes, most)? {
                return Ok(bytes);
            }
        }
        Err(FileFault::Failed)
    }
}

// How many bytes are read at most. All the turns together give fewer than the most of a whole file.
fn most_of(extent: Extent) -> usize
    ensures { (count : ℕ) → count ≤ result → IsWithin extent count }
{
    match extent {
        Extent::Whole => usize::MAX,
        Extent::Front(most) => most,
    }
}

// One read. False means that the file is at its end, or that there are as many bytes as there may be; else at least one
// byte was taken.
fn read_more<F: Read>(file: &mut F, bytes: &mut Vec<u8>, most: usize) -> Result<bool, FileFault>
    ensures most { vec_len bytes.old ≤ most → vec_len bytes.new ≤ most }
    ensures more { IfOk result (λ more. OnTrue more (vec_len bytes.old < vec_len bytes.new)) }
    ensures end { IfOk result (λ more. OnFalse more (vec_len bytes.new ≡ vec_len bytes.old)) }
    ensures chunk { vec_len bytes.new ≤ vec_len bytes.old + CHUNK }
{
    let mut chunk = [0u8; CHUNK];
    let room = CHUNK.min(most.saturating_sub(bytes.len()));
    let Ok(count) = file.read(&mut chunk[..room]) else {
        return Err(FileFault::Failed);
    };
    bytes.extend_from_slice(&chunk[..count])?;
    Ok(count > 0)
}

impl<R: std::rt::Files> Files for HostFiles<'_, R> {
    ghost seen = { λ files. record {
      known = None;
      faults = files.count;
      missed = files.missed.items;
      asked = reverse (map (λ name. name.items) files.asked.items);
    } };

    fn read(&mut self, alloc: Global, name: &str, extent: Extent) -> Result<Vec<u8>, FileFault> {
        // The name is kept before the file is opened, so that a failure can always be named.
        let missed = Vec::from_slice(alloc, name.as_bytes())?;
        let asked = Vec::from_slice(alloc, name.as_bytes())?;
        self.asked.push(asked)?;
        let outcome = self.read_part(alloc, name, extent);
        if let Err(FileFault::Failed) = outcome {
            self.count = self.count.saturating_add(1);
            self.missed = missed;
        }
        outcome
    }

    fn faults(&self) -> u64 {
        self.count
    }

    fn missed(&self) -> &[u8] {
        &self.missed
    }
}
