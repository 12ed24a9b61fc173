ghost use Rattle.std.specs.Prelude.{◌≡◌, ℕ, Bool, true, List, Some, Contains};
ghost use Rattle.cube_fixed.specs.declared.value.Value.{Value};
ghost use Rattle.rule_laws.specs.declared.formula.Formula.{Formula};
ghost use Rattle.rule_laws.specs.Meaning.{Precedent, precedents};
ghost use Rattle.rule_laws.specs.RuleSystem.{RuleSystem, Rule, Stored, part_at, value_by};
ghost use Rattle.rule_evaluate.specs.declared.ask.Ask.{Ask};
ghost use Rattle.rule_evaluate.specs.declared.ask.Ask.TheVariants.{Base as of_base};
ghost use Rattle.rule_evaluate.specs.Readings.{Readings, readings_of, statements_value};
ghost use Rattle.rule_evaluate.specs.Course.{MayRead, passes};

/// Given the values of a table, statements give a cell what the rule equations say.
pub fn a_table_gives_the_equations()
    ensures { (w : RuleSystem) (stored : Stored) (table : ℕ → Value) (c : ℕ) (rules : List Rule)
        → statements_value w (readings_of w stored table) c rules ≡ value_by w stored table c rules }
{}

/// A test passes each question that is asked for what statements give a cell, where it passes the cell's base and what
/// their formulas for the cell read: the cells that their references name, and the sums over components.
pub fn only_what_formulas_read_is_asked()
    ensures { (w : RuleSystem) (t : Readings) (c : ℕ) (may : Ask → Bool) (rules : List Rule)
        → may (of_base c) ≡ true
        → ((rule : Rule) (f : Formula) → Contains rules rule → part_at w c rule ≡ Some f
        → (p : Precedent) → Contains (precedents f) p → MayRead w may c p)
        → passes w t c may rules ≡ true }
{}
