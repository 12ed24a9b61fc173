ghost use Rattle.grammar.specs.Cursor.{Reads};

use crate::language::{Inner, Language};
use crate::sort::{Sort, Want};
use grammar::{Cursor, Scan, Stop};
use std::alloc::Global;
use std::marker::PhantomData;

/// A function that reads expressions with fewer than so many one inside the other. A language's function for a whole
/// expression hands itself on by it.
#[derive(Clone, Copy)]
pub struct Nested<L, F> {
    /// How many expressions may still be one inside the other.
    pub left: u32,
    pub call: F,
    pub language: PhantomData<L>,
}

impl<
    L: Language<C, S>,
    C,
    S: Scan<C>,
    F: Fn(Global, &mut Cursor<'_, S>, u32, Want) -> Result<(L::Tree, Sort), Stop<C>>,
> Inner<L::Tree, C, S> for Nested<L, F> {
    ghost use Rattle.expression_grammar.specs.Readers.Nests.{Nests};
    ghost use Rattle.expression_grammar.specs.Readers.Reading.{read_expression};

    ghost may_read = { λ nested. Nests S.scanned L.language L.read_primary nested.left
        (F.pre nested.call) (F.post nested.call) };

    ghost reads = { λ nested. read_expression S.scanned L.language L.read_primary nested.left };

    fn at(
        &self,
        alloc: Global,
        cursor: &mut Cursor<'_, S>,
        want: Want,
    ) -> Result<(L::Tree, Sort), Stop<C>> {
        (self.call)(alloc, cursor, self.left, want)
    }
}
