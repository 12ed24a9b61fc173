ghost use Rattle.std.specs.Prelude.{◌≡◌, ◌<◌, ℕ, length, IfOk, IsTrue};
ghost use Rattle.std.specs.Option.{option_and_then};
ghost use Rattle.dim_core.specs.Outline.{index_of};
ghost use Rattle.cube_space.specs.Layout.{Layout, axes};
ghost use Rattle.bind_arguments.specs.Bound.{dimension_at, name_given};
ghost use Rattle.bind_arguments.specs.Argument.{table_over};
ghost use Rattle.bind_arguments.specs.Inside.Within.{is_within as is_argument_within};
ghost use Rattle.bind_arguments.specs.Maps.{AreMapsIn};
ghost use Rattle.bind_arguments.specs.Numbers.{is_within_at, numbers_at};

use crate::bound_argument::BoundArgument;
use crate::bound_tables::BoundTables;
use crate::element_function::ElementFunction;
use crate::families::Families;
use crate::giving::element_given;
use crate::own_maps::OwnMaps;
use cube_space::{Space, axis_number};
use rule_laws::{ElementMap, ElementTable};
use std::alloc::{AllocError, Global};
use std::marker::Model;

/// The maps of the arguments and the tables of the functions that were bound so far, in all cubes of a model. What
/// means the same shares one.
#[derive(Drop)]
pub struct BoundMaps {
    maps: OwnMaps,
    tables: BoundTables,
    families: Families,
}

impl Model for BoundMaps {
    ghost use Rattle.bind_arguments.specs.Maps.{Made};
    ghost use Rattle.bind_arguments.specs.contracts.bound_argument.BoundArgument as argument;
    ghost use Rattle.std.specs.Coded.{codes};

    ghost Value = { Made };

    ghost coded = { Prim.hlevel (codes, argument.the_row.coded) };

    ghost view = { λ bound. record {
      maps = bound.maps;
      tables = bound.tables;
      families = bound.families;
    } };
}

impl BoundMaps {
    /// None yet.
    #[tactic(auto, unfolding(crate::specs::Maps::AreMapsIn))]
    pub fn new(alloc: Global) -> BoundMaps
        ensures { (space : Layout) → AreMapsIn space result }
    {
        BoundMaps {
            maps: OwnMaps::new(alloc),
            tables: BoundTables::new(alloc),
            families: Families::new(alloc),
        }
    }

    /// The map of an argument from so many elements of the dimension that it follows into a dimension: the one that
    /// was made before, or a new one.
    #[tactic(auto, unfolding(crate::specs::Maps::AreMapsIn))]
    pub(crate) fn map_of(
        &mut self,
        alloc: Global,
        space: &Space,
        dim: u32,
        argument: BoundArgument,
        len: u32,
    ) -> Result<ElementMap, AllocError>
        requires dim { dim < length space.now.dimensions }
        requires within { (cube : ℕ) × IsTrue (is_argument_within space.now cube argument) }
        requires maps { AreMapsIn space.now self.old }
        ensures map { IfOk result (λ map. map ≡ table_over space.now dim argument len) }
        ensures maps { AreMapsIn space.now self.new }
    {
        self.maps
            .map_of(alloc, space, &mut self.families, dim, argument, len)
    }

    /// The element of a dimension that an argument means which follows no dimension.
    #[tactic(auto, unfolding(crate::specs::Maps::AreMapsIn))]
    pub(crate) fn element_of(
        &mut self,
        alloc: Global,
        space: &Space,
        dim: u32,
        argument: &BoundArgument,
    ) -> Result<Option<u32>, AllocError>
        requires dim { dim < length space.now.dimensions }
        requires within { (cube : ℕ) × IsTrue (is_argument_within space.now cube argument.now) }
        requires maps { AreMapsIn space.now self.old }
        ensures given { IfOk result (λ given. given
            ≡ option_and_then (index_of (dimension_at space.now dim)) (name_given space.now 0 argument.now)) }
        ensures maps { AreMapsIn space.now self.new }
    {
        element_given(
            alloc,
            space,
            &mut self.families,
            space.dimension(dim),
            argument,
            0,
        )
    }

    /// The table of a function over the dimension at a place of a cube: the one that was made before, or a new one.
    #[tactic(auto, unfolding(crate::specs::Maps::AreMapsIn))]
    pub fn table_of(
        &mut self,
        alloc: Global,
        space: &Space,
        cube: u32,
        place: u32,
        function: ElementFunction,
    ) -> Result<ElementTable, AllocError>
        requires cube { cube < length space.now.cubes }
        requires place { place < length (axes space.now cube) }
        requires within { is_within_at space.now cube place function }
        requires maps { AreMapsIn space.now self.old }
        ensures table { IfOk result (λ table. table ≡ numbers_at space.now cube place function) }
        ensures maps { AreMapsIn space.now self.new }
    {
        let dim = axis_number(space, cube, place);
        self.tables.table_of(alloc, space, dim, function)
    }
}
