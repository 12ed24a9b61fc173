ghost use Rattle.std.specs.Prelude.{◌≡◌, ◌<◌, ◌++◌, ◌∷◌, ℕ, [], length};
ghost use Rattle.std.specs.Prelude.{IfOk, IfSome, OnOk, OnErr, IsTrue};
ghost use Rattle.cube_space.specs.Layout.{Layout};
ghost use Rattle.bind_arguments.specs.Argument.{table_over};
ghost use Rattle.bind_arguments.specs.Maps.{IsMapIn, AreOwnMapsIn};
ghost use Rattle.bind_arguments.specs.Inside.Families.{AreFamiliesIn};
ghost use Rattle.bind_arguments.specs.Inside.Within.{is_within};

use crate::alike::{is_alike, key_of};
use crate::bound_argument::BoundArgument;
use crate::families::Families;
use crate::giving::elements_given;
use cube_space::Space;
use rule_laws::ElementMap;
use std::alloc::{AllocError, Global};
use std::marker::Model;
use word_table::WordTable;

/// Where an argument leads from each of so many elements of the dimension that it follows.
#[derive(Drop)]
pub(crate) struct BoundMap {
    pub(crate) len: u32,
    /// The dimension of the elements that it leads to, by its number in the model.
    pub(crate) dim: u32,
    pub(crate) argument: BoundArgument,
    pub(crate) targets: ElementMap,
}

/// The maps of the arguments that were bound so far, in all cubes of a model. Arguments that mean the same share one.
#[derive(Drop)]
pub(crate) struct OwnMaps {
    made: Vec<BoundMap>,
    /// The key of each map.
    keys: WordTable,
}

impl Model for OwnMaps {
    ghost use Rattle.std.specs.Coded.{codes};
    ghost use Rattle.std.specs.Prelude.{List};
    ghost use Rattle.bind_arguments.specs.contracts.bound_argument.BoundArgument as argument;
    ghost use Rattle.bind_arguments.specs.declared.own_maps.BoundMap.{BoundMap};

    ghost Value = { List BoundMap };

    ghost coded = { Prim.hlevel (codes, argument.the_row.coded) };

    ghost view = { λ maps. maps.made.items };
}

impl OwnMaps {
    /// None yet.
    pub(crate) fn new(alloc: Global) -> OwnMaps
        ensures { (space : Layout) → AreOwnMapsIn space result }
    {
        OwnMaps {
            made: Vec::new(alloc),
            keys: WordTable::new(alloc),
        }
    }

    /// The map of an argument from so many elements of the dimension that it follows into a dimension: the one that
    /// was made before, or a new one.
    pub(crate) fn map_of(
        &mut self,
        alloc: Global,
        space: &Space,
        families: &mut Families,
        dim: u32,
        argument: BoundArgument,
        len: u32,
    ) -> Result<ElementMap, AllocError>
        requires dim { dim < length space.now.dimensions }
        requires within { (cube : ℕ) × IsTrue (is_within space.now cube argument) }
        requires maps { AreOwnMapsIn space.now self.old }
        requires families { AreFamiliesIn space.now families.old }
        ensures map { IfOk result (λ map. map ≡ table_over space.now dim argument len) }
        ensures maps { AreOwnMapsIn space.now self.new }
        ensures families { AreFamiliesIn space.now families.new }
    {
        let key = key_of(alloc, len, dim, &argument)?;
        match self.find(&key, len, dim, &argument) {
            Some(targets) => targets.share(),
            None => {
                let targets = elements_given(alloc, space, families, dim, &argument, len)?;
                let shared = targets.share()?;
                self.add(
                    alloc,
                    &key,
                    BoundMap {
                        len,
                        dim,
                        argument,
                        targets,
                    },
                )?;
                Ok(shared)
            }
        }
    }

    // The map with this key, where it is that of an argument that means the same.
    fn find(&self, key: &[u8], len: u32, dim: u32, argument: &BoundArgument) -> Option<&ElementMap>
        ensures { (space : Layout) → AreOwnMapsIn space self.now
            → IfSome result (λ map. map.now ≡ table_over space dim argument.now len) }
    {
        match self.keys.place_of(key) {
            Some(place) => match self.made.get(place) {
                Some(made) => made.targets_for(len, dim, argument),
                None => None,
            },
            None => None,
        }
    }

    // Adds a map as the last.
    fn add(&mut self, alloc: Global, key: &[u8], made: BoundMap) -> Result<(), AllocError>
        ensures added { OnOk result (self.new ≡ self.old ++ made ∷ []) }
        ensures err { OnErr result (self.new ≡ self.old) }
    {
        self.made.reserve(1)?;
        self.keys.push(alloc, key)?;
        self.made.push_reserved(made);
        Ok(())
    }
}

impl BoundMap {
    // The targets, where they are those of an argument that means the same.
    fn targets_for(&self, len: u32, dim: u32, argument: &BoundArgument) -> Option<&ElementMap>
        ensures { (space : Layout) → IsMapIn space self.now
            → IfSome result (λ map. map.now ≡ table_over space dim argument.now len) }
    {
        if self.len == len && self.dim == dim && is_alike(&self.argument, argument) {
            Some(&self.targets)
        } else {
            None
        }
    }
}
