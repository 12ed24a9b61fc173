ghost use Rattle.std.specs.Prelude.{◌≡◌, [], slice_index_or};

use crate::arrows::{arrow_in, slots_in};
use crate::fault::FindFault;
use crate::filing::file_sources;
use crate::numbering::{Numbering, Place};
use crate::numbers::{first_of, number_nodes};
use crate::vertex_numbers::vertex;
use least_ranks::{Arrow, Graph};
use lists::ListOf;
use read_sources::{Group, Source, part_sources, sources_of};
use rule_model::Model;
use std::alloc::{AllocError, Global};

/// The graph of the arrows between the nodes of a model.
#[derive(Drop)]
pub struct NodeGraph<'a> {
    model: &'a Model,
    numbering: Numbering,
    sources: Vec<Source<'a>>,
    // The single sources that are looked at for each element of a cube, and for one element.
    of_cubes: Vec<ListOf<u32>>,
    of_nodes: Vec<ListOf<u32>>,
    // Of each group the first source, and all sources; and the groups that are looked at.
    heads: Vec<Source<'a>>,
    groups: Vec<Group<'a>>,
    groups_of_cubes: Vec<ListOf<u32>>,
    groups_of_nodes: Vec<ListOf<u32>>,
}

impl<'a> std::marker::Model for NodeGraph<'a> {
    ghost use Rattle.order_find.specs.Slots.{Plan, IsPlan};
    ghost use Rattle.rule_laws.specs.contracts.formula.Formula as formula;
    ghost use Rattle.std.specs.Coded.{codes};

    ghost Value = { Plan };

    ghost coded = { Prim.hlevel (codes, formula.the_row.coded) };

    ghost view = { λ g. record {
      model = g.model.now;
      numbering = g.numbering;
      sources = g.sources.items;
      of_cubes = g.of_cubes.items;
      of_nodes = g.of_nodes.items;
      heads = g.heads.items;
      groups = g.groups.items;
      groups_of_cubes = g.groups_of_cubes.items;
      groups_of_nodes = g.groups_of_nodes.items;
    } };

    ghost invariant = { λ g. IsPlan (record {
      model = g.model.now;
      numbering = g.numbering;
      sources = g.sources.items;
      of_cubes = g.of_cubes.items;
      of_nodes = g.of_nodes.items;
      heads = g.heads.items;
      groups = g.groups.items;
      groups_of_cubes = g.groups_of_cubes.items;
      groups_of_nodes = g.groups_of_nodes.items;
    }) };
}

impl<'a> NodeGraph<'a> {
    ghost use Rattle.std.specs.Prelude.{◌≡◌, ◌<◌, ◌+◌, ◌^◌, [], IfOk, IfErr, OnOk, length, slice_get, slice_index_or};
    ghost use Rattle.arrow_laws.specs.Arrows.{IsLevelThroughout};
    ghost use Rattle.order_find.specs.Numbers.{IsPlace, count_of, number_of};
    ghost use Rattle.order_find.specs.Slots.{IsPlan, node_count, components_from, given_from, hubs_from, members};
    ghost use Rattle.read_sources.specs.Sources.{AreSourcesOf};
    ghost use Rattle.order_find.specs.PlanOfAll.{IsPlanOfAll};
    ghost use Rattle.order_find.specs.Unlagged.{IsUnlaggedFault};

    /// The graph of the arrows of a model.
    ///
    /// # Errors
    ///
    /// - [`FindFault::Unlagged`] exactly where some reference may read at a greater lag, with the first such reference.
    /// - [`FindFault::Memory`] when out of memory. More than 2^28 nodes count as that, and so do more than 2^29
    ///   sources.
    pub fn of(alloc: Global, model: &'a Model) -> Result<NodeGraph<'a>, FindFault>
        ensures plan { IfOk result IsPlanOfAll }
        ensures model { IfOk result (λ graph. graph.model ≡ model.now) }
        ensures level { OnOk result (IsLevelThroughout model.now) }
        ensures refused { IfErr result (IsUnlaggedFault model.now) }
    {
        let sources = sources_of(alloc, model)?;
        Ok(NodeGraph::over(alloc, model, sources)?)
    }

    /// The graph of a model over what its statements read at the same lag.
    pub(crate) fn over(
        alloc: Global,
        model: &'a Model,
        sources: Vec<Source<'a>>,
    ) -> Result<NodeGraph<'a>, AllocError>
        requires { AreSourcesOf model.now sources.items }
        ensures plan { IfOk result IsPlanOfAll }
        ensures model { IfOk result (λ graph. graph.model ≡ model.now) }
    {
        let _space = model.space();
        let numbering = number_nodes(alloc, model)?;
        let parted = part_sources(alloc, model, &sources)?;
        let filing = file_sources(alloc, model, &numbering, &parted.singles)?;
        let grouped = file_sources(alloc, model, &numbering, &parted.heads)?;
        Ok(NodeGraph {
            model,
            numbering,
            sources: parted.singles,
            of_cubes: filing.of_cubes,
            of_nodes: filing.of_nodes,
            heads: parted.heads,
            groups: parted.groups,
            groups_of_cubes: grouped.of_cubes,
            groups_of_nodes: grouped.of_nodes,
        })
    }

    /// The model.
    pub(crate) fn model(&self) -> &'a Model
        ensures model { result.now ≡ self.now.model }
        ensures plan { IsPlan self.now }
    {
        self.model
    }

    /// How many nodes of the model there are.
    pub(crate) fn place_count(&self) -> u32
        ensures count { result ≡ count_of self.now.numbering }
        ensures few { node_count self.now < 2 ^ 32 }
    {
        self.numbering.places.len() as u32
    }

    /// The node of the model that has this number.
    pub(crate) fn place(&self, node: u32) -> Option<Place>
        ensures { result ≡ slice_get self.now.numbering.places.items node }
    {
        self.numbering.places.get(node as usize).copied()
    }

    /// A source, by its number.
    pub(crate) fn source(&self, k: u32) -> Option<Source<'a>>
        ensures { result ≡ slice_get self.now.sources k }
    {
        self.sources.get(k as usize).copied()
    }

    /// The single sources that are looked at for each element of a cube.
    pub(crate) fn of_cube(&self, cube: u32) -> &[u32]
        ensures { result.now ≡ slice_index_or self.now.of_cubes cube [] }
    {
        row(&self.of_cubes, cube)
    }

    /// The further sources that are looked at for the element of a node.
    pub(crate) fn of_node(&self, node: u32) -> &[u32]
        ensures { result.now ≡ slice_index_or self.now.of_nodes node [] }
    {
        row(&self.of_nodes, node)
    }

    /// The number of the first node for components, or for consolidated ones alone.
    pub(crate) fn components_from(&self, totals: bool) -> u32
        ensures from { result ≡ components_from self.now totals }
        ensures room { result + count_of self.now.numbering < 2 ^ 32 }
    {
        let _model = self.model();
        let count = self.place_count();
        if totals { count + count } else { count }
    }

    /// The number of the first node for sources by what an element gives of what they ask.
    pub(crate) fn given_from(&self, own: bool, its: bool) -> u32
        ensures from { result ≡ given_from self.now own its }
        ensures room { result + length self.now.sources < 2 ^ 32 }
    {
        let _model = self.model();
        let sources = self.sources.len() as u32;
        let both = self.components_from(true) + self.place_count();
        match (own, its) {
            (true, true) => both,
            (true, false) => both + sources,
            (false, true) => both + sources + sources,
            (false, false) => both + sources + sources + sources,
        }
    }

    /// The number of the first node of a group.
    pub(crate) fn hubs_from(&self) -> u32
        ensures { result ≡ hubs_from self.now }
    {
        let _model = self.model();
        self.given_from(false, false) + self.sources.len() as u32
    }

    /// How many groups there are.
    pub(crate) fn group_count(&self) -> u32
        ensures { result ≡ length self.now.heads }
    {
        self.heads.len() as u32
    }

    /// The first source of a group.
    pub(crate) fn head(&self, group: u32) -> Option<Source<'a>>
        ensures { result ≡ slice_get self.now.heads group }
    {
        self.heads.get(group as usize).copied()
    }

    /// How many sources a group has.
    pub(crate) fn member_count(&self, group: u32) -> usize
        ensures { result ≡ length (members self.now group) }
    {
        match self.groups.get(group as usize) {
            Some(group) => group.sources().len(),
            None => 0,
        }
    }

    /// A source of a group, by its place there.
    pub(crate) fn member(&self, group: u32, slot: usize) -> Option<Source<'a>>
        ensures { result ≡ slice_get (members self.now group) slot }
    {
        match self.groups.get(group as usize) {
            Some(group) => group.sources().get(slot).copied(),
            None => None,
        }
    }

    /// The groups that are looked at for each element of a cube.
    pub(crate) fn groups_of_cube(&self, cube: u32) -> &[u32]
        ensures { result.now ≡ slice_index_or self.now.groups_of_cubes cube [] }
    {
        row(&self.groups_of_cubes, cube)
    }

    /// The further groups that are looked at for the element of a node.
    pub(crate) fn groups_of_node(&self, node: u32) -> &[u32]
        ensures { result.now ≡ slice_index_or self.now.groups_of_nodes node [] }
    {
        row(&self.groups_of_nodes, node)
    }

    /// The number of a node of the model.
    pub(crate) fn number(&self, place: Place) -> u32
        requires { IsPlace self.now.model place }
        ensures number { result ≡ number_of self.now.numbering place }
        ensures within { result < count_of self.now.numbering }
    {
        let _model = self.model();
        first_of(&self.numbering, place.cube, place.kind) + place.element
    }
}

impl<'a> Graph for NodeGraph<'a> {
    ghost use Rattle.order_find.specs.Slots.{arrows_of};

    ghost arrows = { λ g. arrows_of g };

    #[tactic(auto, unfolding(crate::specs::Slots::arrows_of))]
    fn node_count(&self) -> u32 {
        let _model = self.model();
        self.hubs_from() + self.group_count()
    }

    #[tactic(auto, unfolding(crate::specs::Slots::arrows_of))]
    fn slot_count(&self, node: u32) -> u32 {
        match vertex(self, node) {
            Some(found) => slots_in(self, node, found),
            None => 0,
        }
    }

    #[tactic(auto, unfolding(crate::specs::Slots::arrows_of))]
    fn arrow(&self, node: u32, slot: u32) -> Option<Arrow> {
        match vertex(self, node) {
            Some(found) => arrow_in(self, node, found, slot as usize),
            None => None,
        }
    }
}

// One of these lists, which has nothing where there is none.
fn row(rows: &[ListOf<u32>], k: u32) -> &[u32]
    ensures { result.now ≡ slice_index_or rows.now k [] }
{
    match rows.get(k as usize) {
        Some(row) => row.as_slice(),
        None => &[],
    }
}
