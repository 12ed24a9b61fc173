ghost use Rattle.std.specs.Prelude.{◌≡◌, ◌<◌, ◌≤◌, ◌+◌, ℕ, Bool, true, List, ◌∷◌, length, Ok};
ghost use Rattle.user_text.specs.declared.command.ParamText.{ParamText};
ghost use Rattle.cube_fixed.specs.declared.value.Value.{Value};
ghost use Rattle.script_bound.specs.declared.script.BoundScript.{BoundScript};
ghost use Rattle.script_bound.specs.declared.statement.Statement.{Statement};
ghost use Rattle.script_bound.specs.declared.statement.Statement.TheVariants.{While};
ghost use Rattle.script_bound.specs.declared.term.Term.{Term};
ghost use Rattle.script_values.specs.Cells.{Store, Write, writing, zeroing};
ghost use Rattle.script_run.specs.Setting.{Setting, Progress};
ghost use Rattle.script_values.specs.declared.load_reason.LoadReason.{LoadReason};
ghost use Rattle.script_run.specs.declared.ending.Ending.TheVariants.{Stopped};
ghost use Rattle.script_tree.specs.declared.script.Section.TheVariants.{Body};
ghost use Rattle.script_run.specs.Meaning.{Ended, block_of, deed_of};
ghost use Rattle.script_run.specs.Load.{is_of_record, load, passed_over, records, setting, writes_of};
ghost use Rattle.script_laws.specs.Laws.{rejects_of, test_and_again};

/// A `WHILE` is one execution, its test; and where that holds its block, and then the `WHILE` again.
pub fn a_while_is_a_test_and_then_the_while_again()
    ensures { (number : ℕ) (test : Term) (block : List Statement) (store : Store) (here : Setting)
        → (progress : Progress) (writes : List Write)
        → deed_of (While number test block) store here progress writes
        ≡ test_and_again number test block (deed_of (While number test block)) store here progress writes }
{}

/// What holds of the writes before a load, and is kept by each write that the cells allow and where a cell is zeroed
/// out, holds of its writes.
pub fn what_each_write_keeps_a_load_keeps()
    ensures { (store : Store) (keeps : List Write → Bool)
        → ((before after : List Write) (cube : List ℕ) (elements : List (List ℕ)) (value : Value)
        → keeps before ≡ true → writing store before cube elements value ≡ Ok after → keeps after ≡ true)
        → ((before after : List Write) (cube : List ℕ) (elements : List (List ℕ))
        → keeps before ≡ true → zeroing store before cube elements ≡ Ok after → keeps after ≡ true)
        → (script : BoundScript) (params : List (List ℕ × ParamText)) (decimal most : ℕ)
        → (rows : List (List (List ℕ))) (writes : List Write) → keeps writes ≡ true
        → keeps (writes_of (load script params decimal most rows store writes)) ≡ true }
{}

/// Where Data stops at a record for a reason that lies in it, and fewer than the most were passed over, what follows is
/// Data from the next record on, with the writes and the variables that were there before the record.
pub fn a_record_that_is_passed_over_leaves_nothing()
    ensures { (decimal most row : ℕ) (body : List Statement) (store : Store)
        → (columns : List (List ℕ)) (rows : List (List (List ℕ)))
        → (before stopped : Progress) (writes more : List Write) (reason : LoadReason)
        → block_of body store (setting decimal Body row columns) before writes ≡ Ended (Stopped reason) stopped more
        → is_of_record reason ≡ true → length before.rejects < most
        → records decimal most (block_of body) store row (columns ∷ rows) before writes
        ≡ records decimal most (block_of body) store (row + 1) rows (passed_over reason before stopped) writes }
{}

/// A load passes over no more records than it may.
pub fn no_more_records_are_passed_over()
    ensures { (script : BoundScript) (params : List (List ℕ × ParamText)) (decimal most : ℕ)
        → (rows : List (List (List ℕ))) (store : Store) (writes : List Write)
        → length (rejects_of (load script params decimal most rows store writes)) ≤ most }
{}
