ghost use Rattle.std.specs.Prelude.{◌≡◌, if◌then◌else◌, IfOk};
ghost use Rattle.cell_trace.specs.Inside.Listed.{lines_of, none_listed, with_part};
ghost use Rattle.cell_trace.specs.Trace.{most_parts};
ghost use Rattle.cube_fixed.specs.Arithmetic.{is_zero};

use crate::line::{Line, MAX_PARTS, Part, put};
use crate::sums::Summed;
use cube_fixed::Value;
use std::alloc::{AllocError, Global};
use std::marker::Model;

/// The parts of a sum, as they are found: the first are listed, the others counted.
#[derive(Drop)]
pub(crate) struct Parts {
    lines: Vec<Line>,
    more: u64,
}

impl Model for Parts {
    ghost use Rattle.cell_trace.specs.Inside.Listed.{Listed};

    ghost Value = { Listed };

    ghost view = { λ parts. record { lines = parts.lines.items; more = parts.more } };
}

impl Parts {
    /// No parts.
    pub(crate) fn new(alloc: Global) -> Parts
        ensures { result ≡ none_listed }
    {
        Parts {
            lines: Vec::new(alloc),
            more: 0,
        }
    }

    /// One part more, of this value.
    pub(crate) fn push(&mut self, cell: u64, weight: i64, value: &Value) -> Result<(), AllocError>
        ensures { IfOk result (λ _. self.new ≡ with_part most_parts self.old
            (record { cell = cell; weight = weight; value = value.now })) }
    {
        if self.lines.len() < MAX_PARTS {
            self.lines.push(Line::Part(Part {
                cell,
                weight,
                value: *value,
            }))?;
        } else {
            self.more = self.more.checked_add(1).ok_or(AllocError)?;
        }
        Ok(())
    }

    /// The same, unless it is 0.
    pub(crate) fn push_other(
        &mut self,
        cell: u64,
        weight: i64,
        value: &Value,
    ) -> Result<(), AllocError>
        ensures { IfOk result (λ _. self.new ≡ (if is_zero value.now then self.old
            else with_part most_parts self.old (record { cell = cell; weight = weight; value = value.now }))) }
    {
        if *value == Value::ZERO {
            return Ok(());
        }
        self.push(cell, weight, value)
    }

    /// What is added up, of this value: with the lines of those that are listed, and at the end how many more there
    /// are.
    pub(crate) fn summed(mut self, value: Value) -> Result<Summed, AllocError>
        ensures value { IfOk result (λ sum. sum.value ≡ value) }
        ensures lines { IfOk result (λ sum. sum.lines.items ≡ lines_of self) }
    {
        if self.more > 0 {
            put(&mut self.lines, Line::More(self.more))?;
        }
        Ok(Summed {
            value,
            lines: self.lines,
        })
    }
}
