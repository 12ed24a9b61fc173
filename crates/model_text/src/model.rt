use crate::parts::{CubeText, ScriptText};
use dim_text::DimText;
use std::marker::Model;

/// A model text that was read: its dimensions, cubes and scripts, in the order of the text.
#[derive(Drop)]
pub struct ModelText {
    version: u32,
    dims: Vec<DimText>,
    cubes: Vec<CubeText>,
    scripts: Vec<ScriptText>,
}

impl Model for ModelText {
    ghost use Rattle.model_text.specs.Contents.{Contents, contents_of, IsContents};

    ghost Value = { Contents };

    ghost view = { λ t. contents_of t.version t.dims.items t.cubes.items t.scripts.items };

    ghost invariant = { λ t. IsContents (contents_of t.version t.dims.items t.cubes.items t.scripts.items) };
}

impl ModelText {
    ghost use Rattle.std.specs.Prelude.{◌≡◌};
    ghost use Rattle.model_text.specs.Contents.{contents_of, IsContents};

    pub(crate) fn new(
        version: u32,
        dims: Vec<DimText>,
        cubes: Vec<CubeText>,
        scripts: Vec<ScriptText>,
    ) -> ModelText
        requires { IsContents (contents_of version dims.items cubes.items scripts.items) }
        ensures { result ≡ contents_of version dims.items cubes.items scripts.items }
    {
        ModelText {
            version,
            dims,
            cubes,
            scripts,
        }
    }

    /// The version of the text, 1 or 2. Its order lines have the same.
    pub fn version(&self) -> u32
        ensures version { result ≡ self.now.version }
        ensures valid { IsContents self.now }
    {
        self.version
    }

    pub fn dims(&self) -> &[DimText]
        ensures dims { result.now ≡ self.now.dims }
        ensures valid { IsContents self.now }
    {
        &self.dims
    }

    pub fn cubes(&self) -> &[CubeText]
        ensures cubes { result.now ≡ self.now.cubes }
        ensures valid { IsContents self.now }
    {
        &self.cubes
    }

    pub fn scripts(&self) -> &[ScriptText]
        ensures scripts { result.now ≡ self.now.scripts }
        ensures valid { IsContents self.now }
    {
        &self.scripts
    }

    /// Its dimensions, cubes and scripts.
    pub fn into_parts(self) -> (Vec<DimText>, Vec<CubeText>, Vec<ScriptText>)
        ensures dims { result.0.items ≡ self.dims }
        ensures cubes { result.1.items ≡ self.cubes }
        ensures scripts { result.2.items ≡ self.scripts }
        ensures valid { IsContents self }
    {
        let ModelText {
            version: _,
            dims,
            cubes,
            scripts,
        } = self;
        (dims, cubes, scripts)
    }
}
