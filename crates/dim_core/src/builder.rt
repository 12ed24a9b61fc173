ghost use Rattle.std.specs.Prelude.{◌≡◌, ◌<◌, ◌^◌, [], None, length, option_map, IfOk, IfSome, IfNone, OnOk, OnErr};
ghost use Rattle.std.specs.Prelude.{IsOkUnless, IsTrue};
ghost use Rattle.dim_core.specs.Draft.{empty_draft, with_element, with_attribute, is_defined, has_weights, is_too_many};
ghost use Rattle.dim_core.specs.Draft.{first_unknown, first_bad_attribute, first_loop, HasEarlierComponents};
ghost use Rattle.dim_core.specs.Draft.{IsFinished};
ghost use Rattle.dim_core.specs.Refusal.{refusal_of, first_cause, finish_refusal_of, IsAnsweredBy};
ghost use Rattle.dim_order.specs.Levels.{AreLevels};
ghost use Rattle.dim_order.specs.Loops.{IsOrder, ArePartsWithin, first_on_loop};

use crate::attribute::NamedAttribute;
use crate::components::NamedComponents;
use crate::kept_names::kept_names;
use crate::resolve::{first_unknown, resolve_all, resolve_attributes};
use crate::{DimFault, Dimension, Name};
use dim_order::{Components, first_on_loop, levels_of, order_of};
use indexmap::IndexSet;
use lists::{ListOf, TableKeys};
use std::alloc::{AllocError, Global};
use std::marker::Model;

/// The most elements of a dimension.
pub const MAX_ELEMENTS: usize = 100_000;

/// The most components of a dimension, each naming counted.
pub const MAX_COMPONENTS: usize = 1_000_000;

/// The greatest size of a component's weight.
pub const MAX_WEIGHT: u64 = 1_000_000;

/// A dimension that is being defined, element by element. A refused call leaves it as it was.
#[derive(Drop)]
pub struct Builder {
    alloc: Global,
    name: Name,
    names: IndexSet<Name, TableKeys>,
    components: Vec<NamedComponents>,
    component_count: usize,
    attributes: Vec<NamedAttribute>,
}

impl Model for Builder {
    ghost use Rattle.dim_core.specs.Draft.{Draft};
    ghost use Rattle.dim_core.specs.Outline.{elements_of};
    ghost use Rattle.dim_core.specs.Inside.Kept.{IsKept, AreNamed};

    ghost Value = { Draft };

    ghost view = { λ b. record {
      name = b.name;
      elements = elements_of b.names.keys b.components.items;
      attributes = b.attributes.items;
    } };

    ghost invariant = { λ b. IsKept b.names.keys b.components.items b.component_count
        × AreNamed b.name b.names.keys b.attributes.items };
}

impl Builder {
    /// A dimension of this name, with no elements. Its tables have fixed keys: where a text picks the names, `keyed`
    /// makes one that they can't make slow.
    pub fn new(alloc: Global, name: Name) -> Result<Builder, AllocError>
        ensures { IfOk result (λ builder. builder ≡ empty_draft name) }
    {
        Builder::keyed(alloc, name, TableKeys::fixed())
    }

    /// A dimension of this name, with no elements, whose tables have these keys.
    pub fn keyed(alloc: Global, name: Name, table: TableKeys) -> Result<Builder, AllocError>
        ensures { IfOk result (λ builder. builder ≡ empty_draft name) }
    {
        let _is_name = name.shown();
        Ok(Builder {
            alloc,
            name,
            names: IndexSet::with_hasher(alloc, table),
            components: Vec::new(alloc),
            component_count: 0,
            attributes: Vec::new(alloc),
        })
    }

    /// Defines an element without components.
    pub fn leaf(&mut self, name: Name) -> Result<(), DimFault>
        ensures refused { IfSome (refusal_of self.old name []) (λ fault. result ≡ Err fault) }
        ensures accepted { IfNone (refusal_of self.old name []) (IsOkUnless result DimFault.Memory) }
        ensures defined { OnOk result (self.new ≡ with_element self.old name []) }
        ensures unchanged { OnErr result (self.new ≡ self.old) }
    {
        let components = Vec::new(self.alloc);
        self.consolidated(name, components)
    }

    /// Defines an element that consolidates these, each with its weight. Without components it is a leaf.
    pub fn consolidated(&mut self, name: Name, components: Vec<(Name, i64)>) -> Result<(), DimFault>
        ensures refused { IfSome (refusal_of self.old name components.items) (λ fault. result ≡ Err fault) }
        ensures accepted { IfNone (refusal_of self.old name components.items) (IsOkUnless result DimFault.Memory) }
        ensures defined { OnOk result (self.new ≡ with_element self.old name components.items) }
        ensures unchanged { OnErr result (self.new ≡ self.old) }
    {
        if let Some(fault) = self.refusal(&name, &components) {
            return Err(fault);
        }
        let _is_name = name.shown();
        let count = self.component_count + components.len();
        self.components.reserve(1)?;
        self.names.insert(name)?;
        self.components
            .push_reserved(NamedComponents::new(components));
        self.component_count = count;
        Ok(())
    }

    /// Gives an element a text under the name of an attribute. The element may be defined later. `finish` tells whether
    /// it is, and whether a call repeats the element and attribute of an earlier one.
    pub fn attribute(
        &mut self,
        element: Name,
        attribute: Name,
        text: Vec<u8>,
    ) -> Result<(), AllocError>
        ensures given { OnOk result (self.new ≡ with_attribute self.old element attribute text.items) }
        ensures unchanged { OnErr result (self.new ≡ self.old) }
    {
        let _is_name = attribute.shown();
        self.attributes.push(NamedAttribute {
            element,
            name: attribute,
            text: ListOf::new(text),
        })?;
        Ok(())
    }

    // The first cause to refuse this element.
    fn refusal(&self, name: &Name, components: &[(Name, i64)]) -> Option<DimFault>
        ensures { result ≡ refusal_of self.now name.now components.now }
    {
        if self.is_defined(name) {
            return Some(DimFault::Duplicate);
        }
        if !has_weights(components) {
            return Some(DimFault::WeightRange);
        }
        if self.is_too_many(components.len()) {
            return Some(DimFault::TooMany);
        }
        None
    }

    fn is_defined(&self, name: &Name) -> bool
        ensures { result ≡ is_defined self.now name.now }
    {
        self.names.contains(name)
    }

    fn is_too_many(&self, further: usize) -> bool
        ensures { result ≡ is_too_many self.now.elements further }
    {
        self.names.len() == MAX_ELEMENTS || MAX_COMPONENTS - self.component_count < further
    }

    /// The dimension of the elements defined so far, with their attributes. Components may be defined after what they
    /// are components of.
    pub fn finish(self) -> Result<Dimension, DimFault>
        ensures finished { IfOk result (λ dimension. IsFinished self dimension) }
        ensures answered { IsAnsweredBy (finish_refusal_of self) result }
        ensures earlier { HasEarlierComponents self → first_bad_attribute self ≡ None
            → IsOkUnless result DimFault.Memory }
    {
        if let Some(element) = self.first_unknown() {
            return Err(DimFault::UnknownComponent(element));
        }
        self.resolved()
    }

    // The first element with a component that isn't defined.
    fn first_unknown(&self) -> Option<u32>
        ensures { result ≡ first_unknown self.now }
    {
        match first_unknown(&self.names, &self.components) {
            Some(element) => Some(element as u32),
            None => None,
        }
    }

    // The dimension where each component is defined.
    fn resolved(self) -> Result<Dimension, DimFault>
        requires { first_unknown self ≡ None }
        ensures finished { IfOk result (λ dimension. IsFinished self dimension) }
        ensures answered { IsAnsweredBy (first_cause None (first_bad_attribute self) (first_loop self)) result }
    {
        let Builder {
            alloc,
            name,
            names,
            components,
            component_count: _,
            attributes,
        } = self;
        let described = match resolve_attributes(alloc, &names, attributes) {
            Ok(described) => described,
            Err(fault) => return Err(fault),
        };
        let resolved = resolve_all(alloc, &names, &components)?;
        let kept = kept_names(alloc, names)?;
        match order_and_levels(alloc, &resolved) {
            Ok((order, levels)) => Ok(Dimension::new(
                name, kept, resolved, order, levels, described,
            )),
            Err(fault) => Err(fault),
        }
    }
}

// An order of the elements with their levels, or the first that lies on a loop.
fn order_and_levels(alloc: Global, lists: &[Components]) -> Result<(Vec<u32>, Vec<u32>), DimFault>
    requires few { length lists.now < 2 ^ 32 }
    requires within { ArePartsWithin lists.now }
    ensures order { IfOk result (λ found. IsOrder lists.now found.0.items) }
    ensures levels { IfOk result (λ found. AreLevels lists.now found.1.items) }
    ensures answered { IsAnsweredBy (option_map DimFault.Loop (first_on_loop lists.now)) result }
{
    if let Some(order) = order_of(alloc, lists)? {
        let levels = levels_of(alloc, lists, &order)?;
        return Ok((order, levels));
    }
    match first_on_loop(alloc, lists)? {
        Some(element) => Err(DimFault::Loop(element)),
        None => unreachable!(),
    }
}

fn has_weights(components: &[(Name, i64)]) -> bool
    ensures { result ≡ has_weights components.now }
{
    components
        .iter()
        .all(|part| part.1.unsigned_abs() <= MAX_WEIGHT)
}
