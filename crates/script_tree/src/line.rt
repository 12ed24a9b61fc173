use crate::expr::Expr;
use lists::ListOf;
use sqlite_items::Items;

/// A statement of a load script.
#[derive(Drop)]
#[cycle(lines)]
pub enum Line {
    /// `variable = expression;` The variable's word is kept in capitals.
    Assign(ListOf<u8>, Expr),
    /// `CellPutN(value, cube, element, ..);` It has at least three arguments.
    Put(Items<Expr>),
    /// `CellIncrementN(value, cube, element, ..);` It has at least three arguments.
    Increment(Items<Expr>),
    /// `ZeroOut(cube, element, ..);` It has at least two arguments.
    ZeroOut(Items<Expr>),
    /// `ItemSkip;`
    Skip,
    /// `ProcessBreak;`
    Break,
    /// `ProcessError;`
    Error,
    /// `IF(..); .. ENDIF;` The first arm is that of `IF`; where there is an `ELSE`, its arm is the last.
    If(Items<Arm>),
    /// `WHILE(..); .. END;`
    While(Expr, Items<Line>),
}

/// A block of an `IF`.
#[derive(Drop)]
#[cycle(lines)]
pub enum Arm {
    /// The block behind `IF` or `ELSEIF`, with its condition, which is a truth.
    When(Expr, Items<Line>),
    /// The block behind `ELSE`.
    Otherwise(Items<Line>),
}
