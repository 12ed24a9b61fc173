ghost use Rattle.std.specs.Prelude.{◌≡◌, Ok};
ghost use Rattle.bind_areas.specs.Meaning.{Answers};
ghost use Rattle.rule_bind.specs.DimensionSize.{size_named, counted, size_call};

use crate::boxes::boxed;
use crate::reference::fixed_name;
use bind_areas::BindCause;
use cube_fixed::Money;
use cube_space::Space;
use rule_laws::{Formula, Fun};
use rule_tree::Tree;
use sqlite_items::Boxed;
use std::alloc::Global;

// How many elements the dimension has that a quoted text names.
#[tactic(auto, unfolding(crate::specs::DimensionSize::size_named))]
fn size_named(alloc: Global, space: &Space, tree: &Tree) -> Result<u32, BindCause>
    ensures { Answers (size_named space.now tree.now) result }
{
    let Some(name) = fixed_name(alloc, tree)? else {
        return Err(BindCause::UnknownName);
    };
    match space.dimension_of(&name) {
        Some(dim) => Ok(space.dimension(dim).len()),
        None => Err(BindCause::UnknownName),
    }
}

// A number in units. It stands in a `TRUNC`, which leaves it as it is: the zero test takes a number alone for one that
// is written in the rule, and what it finds mustn't change with the elements of a dimension.
fn counted(alloc: Global, units: u32) -> Result<Boxed<Formula>, BindCause>
    ensures { Answers (Ok (counted units)) result }
{
    let number = boxed(alloc, Formula::Number(Money::of_units(units)))?;
    boxed(alloc, Formula::Unary(Fun::Trunc, number))
}

/// What `DIMSIZ` means with these arguments.
#[tactic(auto, unfolding(crate::specs::DimensionSize::size_call))]
pub(crate) fn size_call(
    alloc: Global,
    space: &Space,
    arguments: &[Tree],
) -> Result<Boxed<Formula>, BindCause>
    ensures { Answers (size_call space.now arguments.now) result }
{
    match arguments {
        [dim] => {
            let size = size_named(alloc, space, dim)?;
            counted(alloc, size)
        }
        _ => Err(BindCause::WrongCount),
    }
}
