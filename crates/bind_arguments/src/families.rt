ghost use Rattle.std.specs.Prelude.{◌≡◌, ◌<◌, ◌≤◌, Some, length, slice_get, IfOk, OnOk};
ghost use Rattle.std.specs.Option.{option_map};
ghost use Rattle.cube_space.specs.Layout.{Layout};
ghost use Rattle.dim_core.specs.Outline.{components_of};
ghost use Rattle.bind_arguments.specs.Bound.{dimension_at};
ghost use Rattle.bind_arguments.specs.Family.{relative_of};
ghost use Rattle.bind_arguments.specs.Inside.Families.{AreFamiliesIn};
ghost use Rattle.bind_arguments.specs.declared.family.Family.{Family};

use crate::family::Family;
use crate::relative::Relative;
use cube_space::Space;
use dim_core::Dimension;
use std::alloc::{AllocError, Global};
use std::marker::Model;

/// The families of the dimensions that were asked for so far, by the number of the dimension in the model.
#[derive(Drop)]
pub(crate) struct Families {
    made: Vec<Option<Family>>,
}

impl Model for Families {
    ghost use Rattle.std.specs.Prelude.{List, Option};
    ghost use Rattle.bind_arguments.specs.declared.family.Family.{Family};

    ghost Value = { List (Option Family) };

    ghost view = { λ families. families.made.items };
}

impl Families {
    /// None yet.
    pub(crate) fn new(alloc: Global) -> Families
        ensures { (space : Layout) → AreFamiliesIn space result }
    {
        Families {
            made: Vec::new(alloc),
        }
    }

    /// The element that is this relative of an element of a dimension.
    pub(crate) fn relative_of(
        &mut self,
        alloc: Global,
        space: &Space,
        dim: u32,
        relative: Relative,
        element: u32,
    ) -> Result<Option<u32>, AllocError>
        requires dim { dim < length space.now.dimensions }
        requires element { element < length (dimension_at space.now dim).elements }
        requires families { AreFamiliesIn space.now self.old }
        ensures relative { IfOk result (λ given. given ≡ relative_of (dimension_at space.now dim) relative element) }
        ensures families { AreFamiliesIn space.now self.new }
    {
        match relative {
            Relative::Component(place) => { Ok(component_at(space.dimension(dim), element, place)) }
            Relative::Parent(place) => {
                make(&mut self.made, alloc, space, dim)?;
                Ok(family_of(self.made.as_slice(), dim).parent_at(element, place))
            }
            Relative::NextLeaf => {
                make(&mut self.made, alloc, space, dim)?;
                Ok(family_of(self.made.as_slice(), dim).next_leaf(element))
            }
        }
    }
}

// Makes the family of a dimension, unless it is there.
fn make(
    made: &mut Vec<Option<Family>>,
    alloc: Global,
    space: &Space,
    dim: u32,
) -> Result<(), AllocError>
    requires dim { dim < length space.now.dimensions }
    requires families { AreFamiliesIn space.now made.old.items }
    ensures there { OnOk result ((family : Family) × (slice_get made.new.items dim ≡ Some (Some family))) }
    ensures families { AreFamiliesIn space.now made.new.items }
{
    make_room(made, space)?;
    if made[dim as usize].is_none() {
        let family = Family::new(alloc, space.dimension(dim))?;
        made[dim as usize] = Some(family);
    }
    Ok(())
}

// Has a place for each dimension.
fn make_room(made: &mut Vec<Option<Family>>, space: &Space) -> Result<(), AllocError>
    requires { AreFamiliesIn space.now made.old.items }
    ensures long { OnOk result (length space.now.dimensions ≤ length made.new.items) }
    ensures families { AreFamiliesIn space.now made.new.items }
{
    'room: while made.len() < space.dimensions() as usize {
        made.push(None)?;
    }
    Ok(())
}

// The family of a dimension.
fn family_of(made: &[Option<Family>], dim: u32) -> &Family
    requires { (family : Family) × (slice_get made.now dim ≡ Some (Some family)) }
    ensures { slice_get made.now dim ≡ Some (Some result.now) }
{
    made[dim as usize].as_ref().unwrap()
}

// The component of an element at this place, from 0.
fn component_at(dimension: &Dimension, element: u32, place: u64) -> Option<u32>
    requires { element < length dimension.now.elements }
    ensures { result ≡ option_map (λ part. part.0) (slice_get (components_of dimension.now element) place) }
{
    match dimension.components(element).get(place as usize) {
        Some(part) => Some(part.0),
        None => None,
    }
}
