ghost use Rattle.std.specs.Arc.{arc_value};
ghost use Rattle.std.specs.Prelude.{◌≡◌, IfOk, IsTrue, Some, map, slice_get};
ghost use Rattle.dim_name.specs.Name.{has_name, place_of};
ghost use Rattle.judged_files.specs.ModelFiles.{AreNamed};

use dim_name::Name;
use lists::ListOf;
use script_bound::BoundScript;
use std::alloc::{AllocError, Global};
use std::marker::Model;
use std::sync::Arc;
use user_session::RuleFileNames;

/// What the files that a model names mean to its users' commands: its scripts, in its order, and the names of its rule
/// files.
#[derive(Drop)]
pub struct ModelFiles {
    pub script_names: ListOf<Name>,
    bound: Vec<Arc<BoundScript, Global>>,
    rule_files: RuleFileNames,
}

impl Model for ModelFiles {
    ghost use Rattle.std.specs.Arc.{arc_value};
    ghost use Rattle.std.specs.Coded.{codes};
    ghost use Rattle.std.specs.Prelude.{map};
    ghost use Rattle.script_bound.specs.contracts.script.BoundScript as script;
    ghost use Rattle.judged_files.specs.ModelFiles.{AreNamed, ModelFiles as FilesOf};

    ghost Value = { FilesOf };

    ghost coded = { Prim.hlevel (codes, script.the_row.coded) };

    ghost view = { λ files. record {
      script_names = files.script_names;
      bound = map arc_value files.bound.items;
      rule_files = arc_value files.rule_files;
    } };

    ghost invariant = { λ files. AreNamed files.script_names (map arc_value files.bound.items) };
}

impl ModelFiles {
    /// Scripts of these names, each kept once for all loads, and the names of the rule files, kept once for all traces.
    pub fn new(
        alloc: Global,
        script_names: ListOf<Name>,
        bound: ListOf<BoundScript>,
        rule_files: ListOf<ListOf<u8>>,
    ) -> Result<ModelFiles, AllocError>
        requires { AreNamed script_names bound }
        ensures names { IfOk result (λ files. files.script_names ≡ script_names) }
        ensures bound { IfOk result (λ files. files.bound ≡ bound) }
        ensures rules { IfOk result (λ files. files.rule_files ≡ rule_files) }
    {
        Ok(ModelFiles {
            script_names,
            bound: kept(alloc, bound.into_vec())?,
            rule_files: Arc::new(alloc, rule_files)?,
        })
    }

    /// The script of this name, which is one of them, and its place.
    pub fn named(&self, name: &Name) -> (u32, &Arc<BoundScript, Global>)
        requires { IsTrue (has_name self.now.script_names name.now) }
        ensures place { place_of self.now.script_names name.now ≡ Some result.0 }
        ensures script { slice_get self.now.bound result.0 ≡ Some (arc_value result.1.now) }
    {
        let place = place_of(self.script_names.as_slice(), name).unwrap();
        (place as u32, &self.bound[place])
    }

    /// The names of the rule files, one of each cube, which all traces share.
    pub fn rule_files(&self) -> Result<RuleFileNames, AllocError>
        ensures { IfOk result (λ names. arc_value names ≡ self.now.rule_files) }
    {
        Arc::try_clone(&self.rule_files)
    }

    /// The same names, in a list of its own.
    pub fn rule_file_names(&self, alloc: Global) -> Result<ListOf<ListOf<u8>>, AllocError>
        ensures { IfOk result (λ names. names ≡ self.now.rule_files) }
    {
        copied(alloc, self.rule_files.as_slice())
    }
}

fn copied(alloc: Global, texts: &[ListOf<u8>]) -> Result<ListOf<ListOf<u8>>, AllocError>
    ensures { IfOk result (λ copies. copies ≡ texts.now) }
{
    let mut copies = Vec::with_capacity(alloc, texts.len())?;
    for text in texts {
        copies.push(ListOf::new(Vec::from_slice(alloc, text.as_slice())?))?;
    }
    Ok(ListOf::new(copies))
}

fn kept(
    alloc: Global,
    scripts: Vec<BoundScript>,
) -> Result<Vec<Arc<BoundScript, Global>>, AllocError>
    ensures { IfOk result (λ kept. map arc_value kept.items ≡ scripts.items) }
{
    let mut kept = Vec::with_capacity(alloc, scripts.len())?;
    for script in scripts {
        kept.push(Arc::new(alloc, script)?)?;
    }
    Ok(kept)
}

fn place_of(names: &[Name], name: &Name) -> Option<usize>
    ensures { result ≡ place_of names.now name.now }
{
    names.iter().position(|known| name == known)
}
