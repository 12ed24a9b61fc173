ghost use Rattle.std.specs.Prelude.{◌≡◌, ◌<◌, [], length, OnOk, OnErr, IfSome, All};
ghost use Rattle.dim_name.specs.Name.{place_of};
ghost use Rattle.model_text.specs.Contents.{most_model_dimensions, IsOrderedIn};
ghost use Rattle.model_text.specs.Gathering as gathering;
ghost use Rattle.model_text.specs.Gathering.{with_name, with_cube, with_script};
ghost use Rattle.model_text.specs.Readers.Sections as sections;
ghost use Rattle.model_text.specs.Statement as statement;
ghost use Rattle.model_text.specs.Writable.{IsWritableCube, IsWritableScript};

use crate::parts::{CubeText, ScriptText};
use crate::section::Section;
use dim_name::Name;
use std::alloc::{AllocError, Global};
use std::marker::Model;

/// The most dimensions of a model.
const MAX_MODEL_DIMENSIONS: usize = 256;

/// The most cubes of a model.
const MAX_CUBES: usize = 64;

/// The most scripts of a model.
const MAX_SCRIPTS: usize = 256;

/// What has been read of a model text: its version, the names of its dimensions, its cubes and its scripts, which can
/// be written as they came from tokens.
#[derive(Drop)]
pub struct PartialModel {
    version: u32,
    names: Vec<Name>,
    cubes: Vec<CubeText>,
    scripts: Vec<ScriptText>,
}

impl Model for PartialModel {
    ghost use Rattle.std.specs.Prelude.{◌≤◌, length, All};
    ghost use Rattle.model_text.specs.Contents.{most_model_dimensions, IsOrderedIn};
    ghost use Rattle.model_text.specs.Gathering.{Parts};
    ghost use Rattle.model_text.specs.Writable.{IsWritableCube, IsWritableScript};

    ghost Value = { Parts };

    ghost view = { λ p. record {
      version = p.version;
      names = p.names.items;
      cubes = p.cubes.items;
      scripts = p.scripts.items;
    } };

    ghost invariant = { λ p. (length p.names.items ≤ most_model_dimensions)
        × All (IsOrderedIn p.version) p.cubes.items
        × All IsWritableCube p.cubes.items × All IsWritableScript p.scripts.items };
}

// Where a name stands among these.
fn place_in(names: &[Name], name: &Name) -> Option<usize>
    ensures place { result ≡ place_of names.now name.now }
    ensures bound { IfSome result (λ number. number < length names.now) }
{
    names.iter().position(|known| name == known)
}

impl PartialModel {
    ghost use Rattle.model_text.specs.Gathering.{Parts};

    /// Before the first dimension.
    pub fn new(alloc: Global, version: u32) -> PartialModel
        ensures { result ≡ record { version = version; names = []; cubes = []; scripts = [] } }
    {
        PartialModel {
            version,
            names: Vec::new(alloc),
            cubes: Vec::new(alloc),
            scripts: Vec::new(alloc),
        }
    }

    /// The version of the text.
    pub fn version(&self) -> u32
        ensures { result ≡ self.now.version }
    {
        self.version
    }

    /// Whether the word `TOTALS` may stand in the text.
    pub fn has_totals(&self) -> bool
        ensures { result ≡ statement.has_totals self.now.version }
    {
        self.version == 2
    }

    /// Whether a further statement in this section would be one too many.
    pub fn is_full(&self, section: Section) -> bool
        ensures { result ≡ sections.is_full section self.now }
    {
        match section {
            Section::Dimension => self.names.len() >= MAX_MODEL_DIMENSIONS,
            Section::Cube => self.cubes.len() >= MAX_CUBES,
            Section::Script => self.scripts.len() >= MAX_SCRIPTS,
        }
    }

    fn has_dimension(&self, name: &Name) -> bool
        ensures { result ≡ gathering.has_dimension self.now name.now }
    {
        self.names.iter().any(|known| name == known)
    }

    fn has_cube(&self, name: &Name) -> bool
        ensures { result ≡ gathering.has_cube self.now name.now }
    {
        self.cubes.iter().any(|cube| *name == cube.name)
    }

    fn has_script(&self, name: &Name) -> bool
        ensures { result ≡ gathering.has_script self.now name.now }
    {
        self.scripts.iter().any(|script| *name == script.name)
    }

    /// Whether this name is given in this section.
    pub fn has(&self, section: Section, name: &Name) -> bool
        ensures { result ≡ sections.has section self.now name.now }
    {
        match section {
            Section::Dimension => self.has_dimension(name),
            Section::Cube => self.has_cube(name),
            Section::Script => self.has_script(name),
        }
    }

    /// The number of the dimension of this name.
    pub fn dimension(&self, name: &Name) -> Option<u32>
        ensures { result ≡ place_of self.now.names name.now }
    {
        match place_in(&self.names, name) {
            Some(number) => Some(number as u32),
            None => None,
        }
    }

    /// Takes the name of a further dimension.
    pub fn add_dimension(&mut self, name: Name) -> Result<(), AllocError>
        requires { length self.now.names < most_model_dimensions }
        ensures ok { OnOk result (self.new ≡ with_name self.old name) }
        ensures err { OnErr result (self.new ≡ self.old) }
    {
        self.names.push(name)?;
        Ok(())
    }

    /// Takes a further cube.
    pub fn add_cube(&mut self, cube: CubeText) -> Result<(), AllocError>
        requires writable { IsWritableCube cube }
        requires ordered { IsOrderedIn self.old.version cube }
        ensures ok { OnOk result (self.new ≡ with_cube self.old cube) }
        ensures err { OnErr result (self.new ≡ self.old) }
    {
        self.cubes.push(cube)?;
        Ok(())
    }

    /// Takes a further script.
    pub fn add_script(&mut self, script: ScriptText) -> Result<(), AllocError>
        requires { IsWritableScript script }
        ensures ok { OnOk result (self.new ≡ with_script self.old script) }
        ensures err { OnErr result (self.new ≡ self.old) }
    {
        self.scripts.push(script)?;
        Ok(())
    }

    /// The version, the cubes and the scripts.
    pub fn into_parts(self) -> (u32, Vec<CubeText>, Vec<ScriptText>)
        ensures version { result.0 ≡ self.version }
        ensures cubes { result.1.items ≡ self.cubes }
        ensures scripts { result.2.items ≡ self.scripts }
        ensures cube_orders { All (IsOrderedIn self.version) self.cubes }
        ensures writable_cubes { All IsWritableCube self.cubes }
        ensures writable_scripts { All IsWritableScript self.scripts }
    {
        let PartialModel {
            version,
            names: _,
            cubes,
            scripts,
        } = self;
        (version, cubes, scripts)
    }
}
