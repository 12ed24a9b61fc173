//! Equations over cells.
//!
//! Each cell has one equation: its value is its right side, which may read the values of other cells. Where each right
//! side reads only cells that lie less deep, the equations have just one solution, and some rounds of plain evaluation
//! find it. The coefficients of a dimension and the values of a cube under rules are both such solutions.
//!
//! The definitions are in `specs/Equations.antt`. The two laws below hold for any type of cells and of values, and any
//! space that a test gives; `proofs/RoundsFacts.antt` has them for every space.
#![tactic(auto)]

ghost use Rattle.std.specs.Prelude.{◌≡◌, ℕ, Bool};
ghost use Rattle.equations.specs.Equations.{IsGrounded, Solves, Outlasts, Passing, table_by_rounds};

/// A table solves grounded equations: the one in which each cell is evaluated for more rounds than its depth.
pub fn table_by_rounds_solves<C, V>()
    ensures { (test : C → Bool) (depth rounds : C → ℕ) (right : (C → V) → C → V) (none : V)
        → IsGrounded (Passing test) depth right → Outlasts (Passing test) rounds depth
        → Solves (Passing test) right (table_by_rounds none right rounds) }
{}

/// No other does: a table that solves grounded equations has that table's value at each cell of the space.
pub fn only_table_by_rounds_solves<C, V>()
    ensures { (test : C → Bool) (depth rounds : C → ℕ) (right : (C → V) → C → V) (none : V)
        → IsGrounded (Passing test) depth right → Outlasts (Passing test) rounds depth
        → (table : C → V) → Solves (Passing test) right table
        → (c : C) → Passing test c → table c ≡ table_by_rounds none right rounds c }
{}
