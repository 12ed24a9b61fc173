ghost use Rattle.cube_server.specs.Laws.{OneUserHasOneOutput, ServedValuesAreTheOnlySolution};

use layers::one_user_has_one_layered_history;
use model_laws::ordered_models_have_one_solution;
use user_session::PlanActs;

/// Where one user runs, the text of a run is the same in every schedule.
pub fn one_user_has_one_output()
    ensures { OneUserHasOneOutput }
{
    one_user_has_one_layered_history::<PlanActs>();
}

/// The values of a model that is served solve the rule equations, whatever is stored, and no other values do.
pub fn served_values_are_the_only_solution()
    ensures { ServedValuesAreTheOnlySolution }
{
    ordered_models_have_one_solution();
}
