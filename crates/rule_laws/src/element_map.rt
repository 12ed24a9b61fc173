ghost use Rattle.std.specs.Arc.{arc_value};
ghost use Rattle.std.specs.Prelude.{◌≡◌, None, unwrap_or, slice_get, IfOk, IsTrue};
ghost use Rattle.rule_laws.specs.Maps.{identity, behind, before};

use lists::ListOf;
use std::alloc::{AllocError, Global};
use std::marker::Model;
use std::sync::Arc;

/// For each element of a dimension, by index, an element of another one, or none.
///
/// Most references keep an element or move by so many places, so these maps take no memory. A list may be shared by
/// the maps of many references.
#[derive(Drop)]
pub struct ElementMap {
    form: Form,
}

#[derive(Drop)]
pub(crate) enum Form {
    /// Each of so many elements goes to itself.
    Identity(u32),
    /// None of so many elements goes anywhere.
    Nowhere(u32),
    /// Each of so many elements goes to the one so many places behind it, where there is one.
    Behind(u32, u32),
    /// Each of so many elements goes to the one so many places before it, where there is one.
    Before(u32, u32),
    /// Each element goes where the list has it.
    Listed(Arc<ListOf<Option<u32>>>),
}

impl Model for ElementMap {
    ghost use Rattle.std.specs.Prelude.{ℕ, List, Option};
    ghost use Rattle.rule_laws.specs.Inside.Maps.{targets_of};

    ghost Value = { List (Option ℕ) };

    ghost view = { λ map. targets_of map.form };
}

impl ElementMap {
    ghost use Rattle.std.specs.Prelude.{◌≡◌, Some, None, length, unwrap_or, slice_get, IsTrue};
    ghost use Rattle.rule_laws.specs.Maps.{identity, nowhere, behind, before};

    /// Each of so many elements goes to the one of the same index.
    pub fn identity(len: u32) -> ElementMap
        ensures { result ≡ identity len }
    {
        ElementMap {
            form: Form::Identity(len),
        }
    }

    /// None of so many elements goes anywhere.
    pub fn nowhere(len: u32) -> ElementMap
        ensures { result ≡ nowhere len }
    {
        ElementMap {
            form: Form::Nowhere(len),
        }
    }

    /// Each of so many elements goes to the one so many places behind it, where there is one.
    pub fn behind(len: u32, places: u32) -> ElementMap
        ensures { result ≡ behind len places }
    {
        ElementMap {
            form: Form::Behind(len, places),
        }
    }

    /// Each of so many elements goes to the one so many places before it, where there is one.
    pub fn before(len: u32, places: u32) -> ElementMap
        ensures { result ≡ before len places }
    {
        ElementMap {
            form: Form::Before(len, places),
        }
    }

    /// Each element goes where the list has it.
    pub fn listed(alloc: Global, targets: Vec<Option<u32>>) -> Result<ElementMap, AllocError>
        ensures { IfOk result (λ map. map ≡ targets.items) }
    {
        let targets = Arc::new(alloc, ListOf::new(targets))?;
        Ok(ElementMap {
            form: Form::Listed(targets),
        })
    }

    /// The same map; a list has one more owner.
    pub fn share(&self) -> Result<ElementMap, AllocError>
        ensures { IfOk result (λ map. map ≡ self.now) }
    {
        let form = match &self.form {
            Form::Identity(len) => Form::Identity(*len),
            Form::Nowhere(len) => Form::Nowhere(*len),
            Form::Behind(len, places) => Form::Behind(*len, *places),
            Form::Before(len, places) => Form::Before(*len, *places),
            Form::Listed(targets) => Form::Listed(Arc::try_clone(targets)?),
        };
        Ok(ElementMap { form })
    }

    /// Where an element goes; none for one that the map doesn't have.
    #[tactic(auto, using(crate::proofs::MapFacts::nowhere_get))]
    pub fn get(&self, element: usize) -> Option<u32>
        ensures { result ≡ unwrap_or (slice_get self.now element) None }
    {
        match &self.form {
            Form::Identity(len) => same_below(*len, element),
            Form::Nowhere(_) => None,
            Form::Behind(len, places) => behind_at(*len, *places, element),
            Form::Before(len, places) => before_at(*len, *places, element),
            Form::Listed(targets) => listed_at(targets.as_slice(), element),
        }
    }

    /// Whether it is known that each element goes to itself: the map was made so.
    #[tactic(auto, using(crate::proofs::MapFacts::identity_length))]
    pub fn is_identity(&self) -> bool
        ensures { IsTrue result → self.now ≡ identity (length self.now) }
    {
        matches!(self.form, Form::Identity(_))
    }

    /// Whether both are the same, as far as it is known by how they were made, or by what they list.
    pub fn is_same(&self, other: &ElementMap) -> bool
        ensures { IsTrue result → self.now ≡ other.now }
    {
        match (&self.form, &other.form) {
            (Form::Identity(len), Form::Identity(its)) => len == its,
            (Form::Nowhere(len), Form::Nowhere(its)) => len == its,
            (Form::Behind(len, places), Form::Behind(its, other)) => len == its && places == other,
            (Form::Before(len, places), Form::Before(its, other)) => len == its && places == other,
            (Form::Listed(targets), Form::Listed(its)) => {
                are_equal(targets.as_slice(), its.as_slice())
            }
            _ => false,
        }
    }
}

fn same_below(len: u32, element: usize) -> Option<u32>
    ensures { result ≡ unwrap_or (slice_get (identity len) element) None }
{
    if element < len as usize {
        Some(element as u32)
    } else {
        None
    }
}

fn behind_at(len: u32, places: u32, element: usize) -> Option<u32>
    ensures { result ≡ unwrap_or (slice_get (behind len places) element) None }
{
    if element >= len as usize {
        return None;
    }
    let element = element as u32;
    if places < len - element {
        Some(element + places)
    } else {
        None
    }
}

fn before_at(len: u32, places: u32, element: usize) -> Option<u32>
    ensures { result ≡ unwrap_or (slice_get (before len places) element) None }
{
    if element >= len as usize {
        return None;
    }
    let element = element as u32;
    if element < places {
        None
    } else {
        Some(element - places)
    }
}

fn are_equal(targets: &[Option<u32>], its: &[Option<u32>]) -> bool
    ensures { IsTrue result → targets.now ≡ its.now }
{
    targets == its
}

fn listed_at(targets: &[Option<u32>], element: usize) -> Option<u32>
    ensures { result ≡ unwrap_or (slice_get targets.now element) None }
{
    match targets.get(element) {
        Some(target) => *target,
        None => None,
    }
}
