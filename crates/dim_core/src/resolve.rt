ghost use Rattle.std.specs.Prelude.{◌≡◌, ◌<◌, ◌≤◌, true, List, [], ◌∷◌, ◌++◌, length, IfSome, not, position};
ghost use Rattle.std.specs.Prelude.{option_map, IfOk, All, IsTrue};
ghost use Rattle.std.specs.List.{AllZip, IsDistinct};
ghost use Rattle.dim_core.specs.declared.attribute.NamedAttribute.{NamedAttribute};
ghost use Rattle.dim_core.specs.declared.fault.DimFault.TheVariants.{BadAttribute};
ghost use Rattle.dim_core.specs.Draft.{are_known, is_bad_attribute, first_bad_among, IsResolved, IsResolvedAttribute};
ghost use Rattle.dim_core.specs.Outline.{is_same_attribute, most_elements};
ghost use Rattle.dim_core.specs.Refusal.{IsAnsweredBy};

use crate::attribute::NamedAttribute;
use crate::attribute_draft::AttributeDraft;
use crate::attributes::Attributes;
use crate::components::NamedComponents;
use crate::{DimFault, Name};
use dim_order::Components;
use indexmap::IndexSet;
use lists::TableKeys;
use std::alloc::{AllocError, Global};

/// The first of these lists that has a name which isn't among the names.
pub fn first_unknown(names: &IndexSet<Name, TableKeys>, lists: &[NamedComponents]) -> Option<usize>
    ensures value { result ≡ position (λ parts. not (are_known names.now.keys parts)) lists.now }
    ensures within { IfSome result (λ place. place < length lists.now) }
{
    lists
        .iter()
        .position(|list| !are_known(names, list.as_slice()))
}

fn are_known(names: &IndexSet<Name, TableKeys>, parts: &[(Name, i64)]) -> bool
    ensures { result ≡ are_known names.now.keys parts.now }
{
    parts.iter().all(|part| names.contains(&part.0))
}

/// The components of all elements by index, in the order of the elements.
pub fn resolve_all(
    alloc: Global,
    names: &IndexSet<Name, TableKeys>,
    lists: &[NamedComponents],
) -> Result<Vec<Components>, AllocError>
    requires few { length names.now.keys ≤ most_elements }
    requires known { All (λ parts. IsTrue (are_known names.now.keys parts)) lists.now }
    ensures { IfOk result (λ resolved. AllZip (IsResolved names.now.keys) lists.now resolved.items) }
{
    let mut resolved = Vec::with_capacity(alloc, lists.len())?;
    for list in lists {
        resolved.push(resolve(alloc, names, list.as_slice())?)?;
    }
    Ok(resolved)
}

fn resolve(
    alloc: Global,
    names: &IndexSet<Name, TableKeys>,
    parts: &[(Name, i64)],
) -> Result<Components, AllocError>
    requires few { length names.now.keys ≤ most_elements }
    requires known { IsTrue (are_known names.now.keys parts.now) }
    ensures { IfOk result (λ resolved. IsResolved names.now.keys parts.now resolved) }
{
    let mut resolved = Vec::with_capacity(alloc, parts.len())?;
    for (name, weight) in parts {
        let index = names.get_index_of(name).unwrap();
        resolved.push((index as u32, *weight))?;
    }
    Ok(Components::new(resolved))
}

/// The attributes of these calls, or the number of the first bad call: its element isn't among the names, or it repeats
/// a call before it.
pub fn resolve_attributes(
    alloc: Global,
    names: &IndexSet<Name, TableKeys>,
    calls: Vec<NamedAttribute>,
) -> Result<Attributes, DimFault>
    requires few { length names.now.keys ≤ most_elements }
    ensures resolved { IfOk result (λ resolved. AllZip (IsResolvedAttribute names.now.keys) calls.items resolved) }
    ensures once { IfOk result (λ resolved. IsDistinct is_same_attribute resolved) }
    ensures answered { IsAnsweredBy (option_map BadAttribute (first_bad_among names.now.keys calls.items)) result }
{
    let mut resolved = AttributeDraft::new(alloc, *names.hasher());
    for call in calls {
        let before = resolved.as_slice().len();
        if !add_call(alloc, names, call, &mut resolved)? {
            return Err(DimFault::BadAttribute(before as u64 + 1));
        }
    }
    Ok(resolved.finish(alloc)?)
}

// Adds the attribute of a call, unless the call is bad after those that came before it.
fn add_call(
    alloc: Global,
    names: &IndexSet<Name, TableKeys>,
    call: NamedAttribute,
    resolved: &mut AttributeDraft,
) -> Result<bool, AllocError>
    requires few { length names.now.keys ≤ most_elements }
    ensures bad { IfOk result (λ added. (before : List NamedAttribute)
        → AllZip (IsResolvedAttribute names.now.keys) before resolved.old
        → added ≡ not (is_bad_attribute names.now.keys before call)) }
    ensures added { IfOk result (λ added. added ≡ true → (before : List NamedAttribute)
        → AllZip (IsResolvedAttribute names.now.keys) before resolved.old
        → AllZip (IsResolvedAttribute names.now.keys) (before ++ call ∷ []) resolved.new) }
    ensures once { IfOk result (λ added. added ≡ true → IsDistinct is_same_attribute resolved.old
        → IsDistinct is_same_attribute resolved.new) }
{
    match names.get_index_of(&call.element) {
        Some(index) => resolved.add(alloc, call.of_element(index as u32)),
        None => Ok(false),
    }
}
