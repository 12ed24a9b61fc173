ghost use Rattle.std.specs.Prelude.{◌≡◌, ◌⊎◌, ◌<◌, ◌++◌, ◌∷◌, [], length, replicate, slice_index_or};
ghost use Rattle.std.specs.Prelude.{None, Some, IfOk, IfSome, OnErr, OnOk};
ghost use Rattle.std.specs.Option.{option_copied};
ghost use Rattle.model_bind.specs.Foundation.{memory};
ghost use Rattle.model_bind.specs.Inside.Shared.{HasFile, IsEarlier};
ghost use Rattle.model_bind.specs.Rules.{file_name};

use crate::fault::{At, DeployCause, DeployFault};
use crate::file::RuleFile;
use std::alloc::{AllocError, Global};
use std::marker::Model;

// The rule file of a cube, and an earlier cube with which it is shared.
#[derive(Drop)]
struct CubeFile<'a> {
    file: Option<RuleFile<'a>>,
    same_as: Option<usize>,
}

/// The rule files of a model's cubes, one entry a cube: None for a cube without rules. Their bytes are borrowed, and a
/// file that cubes share is parsed once.
#[derive(Drop)]
pub struct RuleFiles<'a> {
    cubes: Vec<CubeFile<'a>>,
}

impl<'a> Model for RuleFiles<'a> {
    ghost use Rattle.std.specs.Prelude.{List, Option};
    ghost use Rattle.model_bind.specs.Files.{RuleFile};

    ghost Value = { List (Option RuleFile) };

    ghost use Rattle.model_bind.specs.Inside.Shared.{files_of, AreShared};

    ghost view = { λ files. files_of files.cubes.items };

    ghost invariant = { λ files. AreShared files.cubes.items };
}

impl<'a> RuleFiles<'a> {
    /// The files of no cubes yet.
    pub fn new(alloc: Global) -> RuleFiles<'a>
        ensures { result ≡ [] }
    {
        RuleFiles {
            cubes: Vec::new(alloc),
        }
    }

    /// One more cube, without rules.
    pub fn push_none(&mut self) -> Result<(), AllocError>
        ensures pushed { OnOk result (self.new ≡ self.old ++ None ∷ []) }
        ensures err { OnErr result (self.new ≡ self.old) }
    {
        self.push(None, None)
    }

    /// One more cube, with a rule file of this name.
    pub fn push_file(&mut self, name: &'a [u8], bytes: &'a [u8]) -> Result<(), AllocError>
        ensures pushed { OnOk result (self.new
            ≡ self.old ++ Some (record { name = name.now; bytes = bytes.now }) ∷ []) }
        ensures err { OnErr result (self.new ≡ self.old) }
    {
        self.push(Some(RuleFile::new(name, bytes)), None)
    }

    /// One more cube, which shares the rule file of an earlier one.
    pub fn push_shared(&mut self, earlier: usize) -> Result<(), AllocError>
        requires { earlier < length self.old }
        ensures pushed { OnOk result (self.new ≡ self.old ++ slice_index_or self.old earlier None ∷ []) }
        ensures err { OnErr result (self.new ≡ self.old) }
    {
        let file = self.file(earlier).map(RuleFile::again);
        self.push(file, Some(earlier))
    }

    fn push(&mut self, file: Option<RuleFile<'a>>, same_as: Option<usize>) -> Result<(), AllocError>
        requires { IfSome same_as (HasFile self.old file) }
        ensures pushed { OnOk result (self.new ≡ self.old ++ file.entry ∷ []) }
        ensures err { OnErr result (self.new ≡ self.old) }
    {
        self.cubes.push(CubeFile { file, same_as })?;
        Ok(())
    }

    /// How many cubes there are.
    pub(crate) fn len(&self) -> usize
        ensures { result ≡ length self.now }
    {
        self.cubes.len()
    }

    /// The file of a cube.
    pub(crate) fn file(&self, cube: usize) -> Option<&RuleFile<'a>>
        ensures { option_copied result ≡ slice_index_or self.now cube None }
    {
        match self.cubes.get(cube) {
            Some(cube) => cube.file.as_ref(),
            None => None,
        }
    }

    /// An earlier cube, the file of which this one shares.
    pub(crate) fn same_as(&self, cube: usize) -> Option<usize>
        ensures { IfSome result (λ earlier. IsEarlier self.now cube earlier) }
    {
        match self.cubes.get(cube) {
            Some(cube) => cube.same_as,
            None => None,
        }
    }
}

/// The entries of so many cubes that have no rules.
pub fn no_rule_files(alloc: Global, cubes: usize) -> Result<RuleFiles<'static>, AllocError>
    ensures { IfOk result (λ files. files ≡ replicate cubes None) }
{
    let mut files = RuleFiles::new(alloc);
    for _ in 0..cubes {
        files.push_none()?;
    }
    Ok(files)
}

/// The fault in the rule file of a cube.
pub fn fault_in(
    alloc: Global,
    files: &RuleFiles<'_>,
    cube: u32,
    at: At,
    cause: DeployCause,
) -> DeployFault
    ensures { (result ≡ memory)
        ⊎ (result ≡ record { file = file_name files.now cube; at = at; cause = cause }) }
{
    match files.file(cube as usize) {
        Some(file) => DeployFault::within(alloc, file.name(), at, cause),
        None => DeployFault {
            file: None,
            at,
            cause,
        },
    }
}
