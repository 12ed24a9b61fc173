ghost use Rattle.std.specs.Prelude.{◌≡◌, IfOk};
ghost use Rattle.cube_lex.specs.Lexeme.{lexeme_of};
ghost use Rattle.grammar.specs.Cursor.{Reads};
ghost use Rattle.expression_grammar.specs.Language as languages;
ghost use Rattle.expression_grammar.specs.Language.{operator};
ghost use Rattle.expression_grammar.specs.Levels.{table};
ghost use Rattle.expression_grammar.specs.Readers.Reading.{PrimaryReader, Sorted, tree_of};
ghost use Rattle.expression_grammar.specs.declared.sort.Want.TheVariants as wants;

use crate::level::Level;
use crate::sort::{Sort, Want};
use cube_lex::Token;
use grammar::{Cursor, Scan, Stop};
use std::alloc::{AllocError, Global};

/// What reads the expressions that stand inside another one.
pub trait Inner<T, C, S: Scan<C>> {
    ghost may_read: { Self → Type 0 };

    ghost reads: { Self → Sorted S C T };

    /// Reads an expression as wanted, and gives its sort with it.
    fn at(
        &self,
        alloc: Global,
        cursor: &mut Cursor<'_, S>,
        want: Want,
    ) -> Result<(T, Sort), Stop<C>>
        requires { may_read self.now }
        ensures { Reads (λ read. read) (reads self.now want) cursor.old result cursor.new };
}

/// A language of expressions: its operators, how its trees are made, and its primaries.
pub trait Language<C, S: Scan<C>> {
    type Tree: Drop;

    type Op: Drop;

    ghost language: { languages.Language Self.Tree Self.Op };

    ghost read_primary: { PrimaryReader S C Self.Tree };

    /// The operator of this level that a token is, if it is one.
    fn operator_of(level: Level, token: &Token<'_>) -> Option<Self::Op>
        ensures { result ≡ operator (table language level) (lexeme_of token.now) };

    /// An operator between two trees.
    fn joined(
        alloc: Global,
        op: Self::Op,
        left: Self::Tree,
        right: Self::Tree,
    ) -> Result<Self::Tree, AllocError>
        ensures { IfOk result (λ made. made ≡ language.joined op left right) };

    /// `-` before a tree.
    fn negated(alloc: Global, tree: Self::Tree) -> Result<Self::Tree, AllocError>
        ensures { IfOk result (λ made. made ≡ language.negated tree) };

    /// `~` before a tree.
    fn opposite(alloc: Global, tree: Self::Tree) -> Result<Self::Tree, AllocError>
        ensures { IfOk result (λ made. made ≡ language.opposite tree) };

    /// Reads a primary but for one in parentheses.
    fn primary<I: Inner<Self::Tree, C, S>>(
        alloc: Global,
        cursor: &mut Cursor<'_, S>,
        inner: &I,
    ) -> Result<Self::Tree, Stop<C>>
        requires { I.may_read inner.now }
        ensures { Reads (λ tree. tree)
            (read_primary (tree_of (I.reads inner.now wants.Value)) (tree_of (I.reads inner.now wants.Truth)))
            cursor.old result cursor.new };
}
