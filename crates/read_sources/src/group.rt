use crate::source::Source;
use std::alloc::{AllocError, Global};

/// Sources that each always read the node of one element, and read from the same elements.
#[derive(Drop)]
pub struct Group<'a> {
    sources: Vec<Source<'a>>,
}

impl<'a> std::marker::Model for Group<'a> {
    ghost use Rattle.std.specs.Prelude.{List};
    ghost use Rattle.read_sources.specs.declared.source.Source.{Source};
    ghost use Rattle.rule_laws.specs.contracts.formula.Formula as formula;
    ghost use Rattle.std.specs.Coded.{codes};

    ghost Value = { List Source };

    ghost coded = { Prim.hlevel (codes, formula.the_row.coded) };

    ghost view = { λ group. group.sources.items };
}

impl<'a> Group<'a> {
    ghost use Rattle.std.specs.Prelude.{◌≡◌, [], ◌∷◌, ◌++◌, IfOk, OnOk};

    /// A group of one source.
    pub(crate) fn of(alloc: Global, source: Source<'a>) -> Result<Group<'a>, AllocError>
        ensures { IfOk result (λ group. group ≡ source.entry ∷ []) }
    {
        let mut sources = Vec::new(alloc);
        sources.push(source)?;
        Ok(Group { sources })
    }

    /// Puts a source at the end.
    pub(crate) fn push(&mut self, source: Source<'a>) -> Result<(), AllocError>
        ensures { OnOk result (self.new ≡ self.old ++ source.entry ∷ []) }
    {
        self.sources.push(source)?;
        Ok(())
    }

    /// All sources of the group.
    pub fn sources(&self) -> &[Source<'a>]
        ensures { result.now ≡ self.now }
    {
        self.sources.as_slice()
    }
}
