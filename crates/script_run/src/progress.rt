ghost use Rattle.std.specs.Prelude.{◌≡◌, ◌+◌, ◌<◌, ◌≤◌, ◌∷◌, ◌++◌, [], Some, IsTrue, IfOk, OnOk, OnErr, slice_set};
ghost use Rattle.std.specs.Prelude.{false, true, if◌then◌else◌, length, slice_index_or};
ghost use Rattle.script_run.specs.Inside.Running.{AreFlagged, before_changes};
ghost use Rattle.script_run.specs.Meaning.{Begins, begin};

use crate::execution_place::ExecutionPlace;
use crate::here::Here;
use crate::reject::Reject;
use lists::ListOf;
use script_values::{Kept, LoadReason, Sight};
use std::alloc::{AllocError, Global};
use std::marker::Model;

/// How far a load has come.
#[derive(Drop)]
pub(crate) struct Run {
    variables: Vec<Option<Kept>>,
    /// What variables held at the mark: those that were set since then, each once.
    changes: Vec<(usize, Option<Kept>)>,
    /// Whether each variable is among the changes.
    is_changed: Vec<bool>,
    left: u32,
    last: ExecutionPlace,
    rejects: Vec<Reject>,
}

impl Model for Run {
    ghost use Rattle.std.specs.Prelude.{◌≡◌, length};
    ghost use Rattle.script_run.specs.Inside.Running.{Running, AreFlagged, before_changes};

    ghost Value = { Running };

    ghost view = { λ run. record {
      progress = record {
        variables = run.variables.items;
        left = run.left;
        last = run.last;
        rejects = run.rejects.items;
      };
      held = before_changes run.changes.items run.variables.items;
    } };

    ghost invariant = { λ run. (length run.is_changed.items ≡ length run.variables.items)
        × AreFlagged run.changes.items run.is_changed.items };
}

impl Run {
    ghost use Rattle.script_run.specs.Meaning.{scene_of};

    /// Before the first execution, with these variables and so many executions.
    pub(crate) fn new(
        alloc: Global,
        variables: Vec<Option<Kept>>,
        left: u32,
        last: ExecutionPlace,
    ) -> Result<Run, AllocError>
        ensures { IfOk result (λ run. run.progress
            ≡ record { variables = variables.items; left = left; last = last; rejects = [] }) }
    {
        let is_changed = vec![in alloc; false; variables.len()]?;
        Ok(Run {
            variables,
            changes: Vec::new(alloc),
            is_changed,
            left,
            last,
            rejects: Vec::new(alloc),
        })
    }

    /// How many executions are left.
    pub(crate) fn left(&self) -> u32
        ensures { result ≡ self.now.progress.left }
    {
        self.left
    }

    /// Where the last execution stands.
    pub(crate) fn last(&self) -> ExecutionPlace
        ensures { result ≡ self.now.progress.last }
    {
        self.last
    }

    /// The records that were passed over.
    pub(crate) fn rejects(&self) -> &[Reject]
        ensures { result.now ≡ self.now.progress.rejects }
    {
        &self.rejects
    }

    /// The records that were passed over, when the load is done.
    pub(crate) fn into_rejects(self) -> ListOf<Reject>
        ensures { result ≡ self.progress.rejects }
    {
        ListOf::new(self.rejects)
    }

    /// Begins one execution more, if one is left.
    pub(crate) fn begin(&mut self, place: ExecutionPlace) -> bool
        ensures begun { Begins result self.new.progress ≡ begin place self.old.progress }
        ensures counted { IsTrue result → self.new.progress.left + 1 ≡ self.old.progress.left }
        ensures left { self.new.progress.left ≤ self.old.progress.left }
        ensures held { self.new.held ≡ self.old.held }
    {
        if self.left == 0 {
            return false;
        }
        self.left -= 1;
        self.last = place;
        true
    }

    /// What an expression sees.
    pub(crate) fn sight<'a>(&'a self, here: &Here<'a>) -> Sight<'a>
        ensures { result ≡ scene_of here.now self.now.progress }
    {
        Sight::new(self.variables.as_slice(), here.columns(), here.decimal())
    }

    /// Sets a variable.
    pub(crate) fn keep(&mut self, place: usize, value: Kept) -> Result<(), AllocError>
        ensures variables { OnOk result (self.new.progress.variables
            ≡ slice_set self.old.progress.variables place (Some value)) }
        ensures left { self.new.progress.left ≡ self.old.progress.left }
        ensures last { self.new.progress.last ≡ self.old.progress.last }
        ensures rejects { self.new.progress.rejects ≡ self.old.progress.rejects }
        ensures held { OnOk result (self.new.held ≡ self.old.held) }
    {
        if place < self.variables.len() {
            let before = self.variables[place].replace(value);
            list_change(place, before, &mut self.changes, &mut self.is_changed)?;
        }
        Ok(())
    }

    /// Marks what the variables hold.
    pub(crate) fn mark(&mut self)
        ensures progress { self.new.progress ≡ self.old.progress }
        ensures held { self.new.held ≡ self.old.progress.variables }
    {
        unlist(&mut self.changes, &mut self.is_changed);
    }

    /// Passes over a record that was begun with so many rejects and stopped for this reason: the variables hold again
    /// what they held at the mark.
    pub(crate) fn pass_over(&mut self, reason: LoadReason) -> Result<(), AllocError>
        ensures variables { OnOk result (self.new.progress.variables ≡ self.old.held) }
        ensures left { self.new.progress.left ≡ self.old.progress.left }
        ensures last { self.new.progress.last ≡ self.old.progress.last }
        ensures rejects { let last = self.old.progress.last in OnOk result (self.new.progress.rejects
            ≡ self.old.progress.rejects
            ++ record { row = last.row; statement = last.statement; reason = reason } ∷ []) }
    {
        undo(&mut self.changes, &mut self.is_changed, &mut self.variables);
        self.rejects.push(Reject {
            row: self.last.row,
            statement: self.last.statement,
            reason,
        })?;
        Ok(())
    }
}

/// Lists what a variable held, where it isn't among the changes.
fn list_change(
    place: usize,
    before: Option<Kept>,
    changes: &mut Vec<(usize, Option<Kept>)>,
    is_changed: &mut Vec<bool>,
) -> Result<(), AllocError>
    requires { place < length is_changed.old.items }
    ensures changes { OnOk result (changes.new.items ≡ (if slice_index_or is_changed.old.items place false
        then changes.old.items else changes.old.items ++ (place, before) ∷ [])) }
    ensures flags { OnOk result (is_changed.new.items ≡ slice_set is_changed.old.items place true) }
    ensures unchanged { OnErr result
        ((changes.new.items ≡ changes.old.items) × (is_changed.new.items ≡ is_changed.old.items)) }
{
    if !is_changed[place] {
        changes.push((place, before))?;
    }
    is_changed[place] = true;
    Ok(())
}

/// Takes all changes out of the list.
fn unlist(changes: &mut Vec<(usize, Option<Kept>)>, is_changed: &mut Vec<bool>)
    requires { AreFlagged changes.old.items is_changed.old.items }
    ensures changes { changes.new.items ≡ [] }
    ensures flags { AreFlagged [] is_changed.new.items }
    ensures length { length is_changed.new.items ≡ length is_changed.old.items }
{
    'each: while let Some((place, _)) = changes.pop() {
        is_changed[place] = false;
    }
}

/// Undoes all changes, the last one first.
fn undo(
    changes: &mut Vec<(usize, Option<Kept>)>,
    is_changed: &mut Vec<bool>,
    variables: &mut Vec<Option<Kept>>,
)
    requires flags { AreFlagged changes.old.items is_changed.old.items }
    requires whole { length is_changed.old.items ≡ length variables.old.items }
    ensures variables { variables.new.items ≡ before_changes changes.old.items variables.old.items }
    ensures changes { changes.new.items ≡ [] }
    ensures flags { AreFlagged [] is_changed.new.items }
    ensures whole { length is_changed.new.items ≡ length variables.new.items }
{
    'each: while let Some((place, before)) = changes.pop() {
        variables[place] = before;
        is_changed[place] = false;
    }
}
