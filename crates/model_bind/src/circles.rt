ghost use Rattle.std.specs.Prelude.{◌≡◌, ◌⊎◌, All, IfOk, Some, map};
ghost use Rattle.order_find.specs.Circles.{IsCircle, BeginsLeast};
ghost use Rattle.model_bind.specs.Foundation.{memory};
ghost use Rattle.model_bind.specs.Binding.{cycle_refusal, link_name};
ghost use Rattle.model_bind.specs.Inside.Linked.{IsLinked};

use crate::fault::{At, DeployCause, DeployFault};
use crate::rule_files::{RuleFiles, fault_in};
use cube_space::{Space, axis, axis_count};
use lists::ListOf;
use order_find::{Link, LinkBy};
use rule_model::Model;
use std::alloc::{AllocError, Global};

/// A circle that formulas run in, at the statement by which its first element reads.
pub fn circle_fault(
    alloc: Global,
    files: &RuleFiles<'_>,
    model: &Model,
    links: &[Link],
) -> DeployFault
    requires circle { IsCircle model.now links.now }
    requires least { BeginsLeast links.now }
    ensures { (result ≡ memory) ⊎ (cycle_refusal model.now.space files.now links.now ≡ Some result) }
{
    let Ok(names) = link_names(alloc, model.space(), links) else {
        return DeployFault::memory();
    };
    match links {
        [
            Link {
                cube,
                by: LinkBy::Reference { statement, .. },
                ..
            },
            ..
        ] => {
            let cause = DeployCause::Cycle(names);
            fault_in(alloc, files, *cube, At::Statement(*statement), cause)
        }
        // a circle begins with a reference
        _ => unreachable!(),
    }
}

// The names of the elements of these links.
fn link_names(
    alloc: Global,
    space: &Space,
    links: &[Link],
) -> Result<ListOf<ListOf<u8>>, AllocError>
    requires { All (IsLinked space.now) links.now }
    ensures { IfOk result (λ names. names ≡ map (link_name space.now) links.now) }
{
    let mut names = Vec::with_capacity(alloc, links.len())?;
    for link in links {
        names.push(link_name(alloc, space, *link)?)?;
    }
    Ok(ListOf::new(names))
}

// The name of a link's element of its cube's last dimension.
fn link_name(alloc: Global, space: &Space, link: Link) -> Result<ListOf<u8>, AllocError>
    requires { IsLinked space.now link }
    ensures { IfOk result (λ name. name ≡ link_name space.now link) }
{
    // a space says of itself that each cube has a dimension
    let _cells = space.size();
    let last = axis_count(space, link.cube) - 1;
    let name = axis(space, link.cube, last).name_of(link.element);
    Ok(ListOf::new(Vec::from_slice(alloc, name.shown())?))
}
