ghost use Rattle.std.specs.Prelude.{◌≡◌, IfSome};
ghost use Rattle.memo_cells.specs.Values.{cell_value};
ghost use Rattle.memo_cells.specs.declared.version.Version.{Version};

use cell_store::Store;
use cube_fixed::Value;
use model_laws::{statements_of_the_cube_decide, statements_of_the_cube_give_in_turn};
use rule_model::{Model, governing};
use stored_laws::sums_over_entries_are_sums_below;

/// The value of a leaf cell that no statement governs, which is what is stored there. None for other cells.
pub fn leaf_value(model: &Model, store: &Store, cell: u64) -> Option<Value>
    ensures { (version : Version) → version.model.value ≡ model.now → version.stored.value ≡ store.now
        → IfSome result (λ value. value ≡ cell_value version cell) }
{
    if cell >= model.space().size() || !model.space().is_leaf(cell) {
        return None;
    }
    match governing(model, cell) {
        Some(_) => None,
        None => {
            statements_of_the_cube_decide();
            statements_of_the_cube_give_in_turn();
            sums_over_entries_are_sums_below();
            Some(Value::Num(store.get(cell)))
        }
    }
}
