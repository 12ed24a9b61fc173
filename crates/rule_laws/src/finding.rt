use cube_fixed::{Money, Value};

/// What the zero test finds of a formula.
#[derive(Clone, Copy)]
pub struct Finding {
    /// The number that it is written as, without `-`.
    pub number: Option<Money>,
    /// The value that it is written as: a number, with or without `-`.
    pub written: Option<Value>,
    /// Whether it is 0 wherever its covered references, `STET` and `CONTINUE` are.
    pub is_zero: bool,
    /// Whether it is a table, which never gives `Over`.
    pub is_table: bool,
    /// How many operands it has: its numbers, references, tables, `STET`s and `ConsolidateChildren`s.
    pub operands: u32,
    /// The operand that it is blamed on where it isn't 0, counted from 1 in reading order.
    pub blamed: u32,
}

/// What the zero test finds of a condition.
#[derive(Clone, Copy)]
pub struct TruthFinding {
    /// The truth that it surely has, or nothing.
    pub sure: Option<bool>,
    pub operands: u32,
}
