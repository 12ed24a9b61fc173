ghost use Rattle.std.specs.Prelude.{ℕ, List, IsSome};
ghost use Rattle.rule_laws.specs.RuleSystem.{RuleSystem, Stored};
ghost use Rattle.rule_laws.specs.Feeding.{IsFed};
ghost use Rattle.change_laws.specs.Change.{AreFed, AreSure, IsChange, IsSureBy};
ghost use Rattle.change_laws.specs.Regrowth.{AreAgain, AreAtRisk, HaveGrown, IsRegrowth, kept_of};

/// What is kept of the fed cells and comes again is a regrowth: no kept cell has to be followed, and of the stored
/// cells just those that came.
pub fn changes_are_regrown()
    ensures { (w : RuleSystem) (before after : Stored) (went came fed sure risk again : List ℕ)
        → IsChange before after went came → AreFed w before fed → AreSure w after sure
        → AreAtRisk w after went sure risk → AreAgain w after (kept_of fed risk) risk again
        → IsRegrowth w after came (kept_of fed risk) again }
{}

/// What grows from a regrowth are the fed cells.
pub fn regrown_cells_are_fed()
    ensures { (w : RuleSystem) (after : Stored) (came kept again cells : List ℕ)
        → IsRegrowth w after came kept again → HaveGrown w came kept again cells → AreFed w after cells }
{}

/// So what grows from the kept cells, those that come again and those that came are the fed cells after the change.
pub fn fed_cells_after_a_change()
    ensures { (w : RuleSystem) (before after : Stored) (went came fed sure risk again cells : List ℕ)
        → IsChange before after went came → AreFed w before fed → AreSure w after sure
        → AreAtRisk w after went sure risk → AreAgain w after (kept_of fed risk) risk again
        → HaveGrown w came (kept_of fed risk) again cells → AreFed w after cells }
{}

/// A cell that a few looks backwards find fed is fed, though feeds may run in circles.
pub fn few_looks_are_sure()
    ensures { (w : RuleSystem) (stored : Stored) (looks c : ℕ) → IsSureBy w stored looks c → IsFed w stored c }
{}

/// Where more is stored, no less is fed: so limits may be tested where more is stored than will be.
pub fn more_stored_feed_more()
    ensures { (w : RuleSystem) (some more : Stored) → ((x : ℕ) → IsSome (some x) → IsSome (more x))
        → (c : ℕ) → IsFed w some c → IsFed w more c }
{}
