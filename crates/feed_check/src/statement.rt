ghost use Rattle.std.specs.Prelude.{◌≡◌, ◌<◌, true, length, None, IfSome};
ghost use Rattle.rule_laws.specs.Cover.{IsCoveredRule};
ghost use Rattle.rule_model.specs.BoundModel.{rules_of};
ghost use Rattle.rule_model.specs.Conditions.{IsStatement};
ghost use Rattle.rule_model.specs.System.{system_of, rule_of};
ghost use Rattle.feed_cover.specs.Answers.{AreAnswers};
ghost use Rattle.feed_check.specs.Verdict.{IsBlamed};

use crate::cover::Covered;
use cover_laws::cover_is_decided_by_dimension;
use feed_cover::CoverAnswers;
use rule_laws::findings_rest_on_references;
use rule_model::{Model, Statement};
use zero_check::zero_verdict;

/// The operand that the N part of a statement is blamed on, if it isn't covered.
pub fn blamed_in<'a>(
    model: &'a Model,
    cube: u32,
    statement: &'a Statement,
    answers: &mut CoverAnswers<'a>,
) -> Option<u32>
    requires cube { cube < length model.now.space.cubes }
    requires statement { IsStatement model.now.space cube statement.now }
    requires skips { (rules_of model.now cube).skipcheck ≡ true }
    requires answers { AreAnswers model.now cube answers.old }
    ensures covered { result ≡ None → IsCoveredRule (system_of model.now) (rule_of model.now.space cube statement.now) }
    ensures blamed { IfSome result (IsBlamed (system_of model.now) (rule_of model.now.space cube statement.now)) }
    ensures answers { AreAnswers model.now cube answers.new }
{
    let _space = model.space();
    cover_is_decided_by_dimension();
    findings_rest_on_references();
    let covered = Covered {
        model,
        cube,
        area: &statement.area,
    };
    match &statement.leaf {
        Some(formula) => match zero_verdict(&covered, formula, answers) {
            Ok(()) => None,
            Err(operand) => Some(operand),
        },
        None => None,
    }
}
