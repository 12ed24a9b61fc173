use crate::term::Term;
use sqlite_items::Items;

/// A statement of a load script, with its number in its section.
#[derive(Drop)]
#[cycle(statements)]
pub enum Statement {
    /// The variable of the second number is set.
    Assign(u32, usize, Term),
    /// `CellPutN`: what is written, and the names of a cube and of its elements.
    Put(u32, Term, Items<Term>),
    /// `CellIncrementN`: what is added, and the names of a cube and of its elements.
    Increment(u32, Term, Items<Term>),
    /// `ZeroOut`: the names of a cube and of its elements.
    ZeroOut(u32, Items<Term>),
    /// `ItemSkip`
    Skip(u32),
    /// `ProcessBreak`
    Break(u32),
    /// `ProcessError`
    Error(u32),
    /// `IF`: the first case that holds is run.
    If(u32, Items<Case>),
    /// `WHILE`: its condition, and what is run as long as that holds.
    While(u32, Term, Items<Statement>),
}

/// A block of an `IF`.
#[derive(Drop)]
#[cycle(statements)]
pub enum Case {
    /// The block behind `IF` or `ELSEIF`, with its condition.
    When(Term, Items<Statement>),
    /// The block behind `ELSE`, which always holds.
    Otherwise(Items<Statement>),
}
