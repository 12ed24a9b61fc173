ghost use Rattle.std.specs.Prelude.{◌≡◌, ℕ, ◌+◌, ◌<◌, ◌≤◌, ◌^◌, true, pos, neg_ℤ, ◌-ℤ◌};
ghost use Rattle.std.specs.Prelude.{Some, length, unsigned_abs, IfSome, slice_index_or};
ghost use Rattle.cube_space.specs.Layout.{axes, sizes};
ghost use Rattle.rule_laws.specs.Meaning.{Named, Components};
ghost use Rattle.rule_model.specs.Conditions.{IsReference, IsPrecedent};
ghost use Rattle.order_laws.specs.Scales.{scale_of, fixed_sum, parts_in};
ghost use Rattle.order_laws.specs.Earlier.{component_number, components_number, number_by_kinds};
ghost use Rattle.order_laws.specs.Earlier.{start_by_kinds, kinds_before};
ghost use Rattle.ref_order.specs.Kinds.{AreNumbers, AreWithin};
ghost use Rattle.ref_order.specs.Known.{kinds_asked, number_asked, kept_number};
ghost use Rattle.ref_order.specs.Reads.{precedent_of};

use crate::kinds::{Numbers, larger_numbers, no_numbers, of_kind};
use crate::named::{Source, fixed_leaves, fixed_sum, moved_from};
use crate::number::plus;
use crate::question::Question;
use crate::reads::Read;
use crate::scale::{KindScale, axis, base, is_leaf_element, worth};
use rule_laws::Reference;
use rule_model::Model;

/// What an element of a dimension of the source adds to the cell that is read more than to its own cell, by the kind of
/// what is named from it.
pub fn numbers_from(model: &Model, cube: u32, asked: Question, element: u32) -> Numbers
    requires cube { cube < length model.now.space.cubes }
    requires read { IsPrecedent model.now.space cube (precedent_of asked.read) }
    requires dim { asked.dim < length (axes model.now.space cube) }
    requires element { element < slice_index_or (sizes model.now.space cube) asked.dim 0 }
    ensures numbers { AreNumbers result (number_asked model.now cube asked.entry element) }
    ensures size { AreWithin result (2 ^ 40) }
{
    match asked.read {
        Read::Cell(reference) => named_numbers(model, cube, asked, reference, element),
        Read::Children(dim) => child_numbers(model, cube, asked, dim, element),
    }
}

// By a reference.
fn named_numbers(
    model: &Model,
    cube: u32,
    asked: Question,
    reference: &Reference,
    element: u32,
) -> Numbers
    requires cube { cube < length model.now.space.cubes }
    requires read { IsReference model.now.space cube reference.now }
    requires dim { asked.dim < length (axes model.now.space cube) }
    requires element { element < slice_index_or (sizes model.now.space cube) asked.dim 0 }
    ensures numbers { AreNumbers result (number_by_kinds model.now cube (kinds_asked asked.entry) asked.entry.place
        (Named reference.now) asked.entry.dim element) }
    ensures size { AreWithin result (2 ^ 40) }
{
    let _space = model.space();
    let own = KindScale {
        model,
        cube,
        kind: asked.own,
        place: asked.place,
    };
    let its = KindScale {
        model,
        cube: reference.cube,
        kind: asked.its,
        place: asked.place,
    };
    let source = Source {
        cube,
        dim: asked.dim,
        element,
    };
    let worth = worth(own, asked.dim, element);
    let moved = moved_from(its, reference, 0, source);
    of_kind(moved.leaves, plus(moved.sum, minus(worth)))
}

// Where components in a dimension are read.
fn child_numbers(model: &Model, cube: u32, asked: Question, dim: u32, element: u32) -> Numbers
    requires cube { cube < length model.now.space.cubes }
    requires dim { asked.dim < length (axes model.now.space cube) }
    requires element { element < slice_index_or (sizes model.now.space cube) asked.dim 0 }
    ensures numbers { AreNumbers result (number_by_kinds model.now cube (kinds_asked asked.entry) asked.entry.place
        (Components dim) asked.entry.dim element) }
    ensures size { AreWithin result (2 ^ 40) }
{
    if asked.dim == dim as usize {
        return component_numbers(model, cube, asked, element);
    }
    kept_numbers(model, cube, asked, element)
}

// Of a dimension in which an element stays.
fn kept_numbers(model: &Model, cube: u32, asked: Question, element: u32) -> Numbers
    requires cube { cube < length model.now.space.cubes }
    requires dim { asked.dim < length (axes model.now.space cube) }
    requires element { element < slice_index_or (sizes model.now.space cube) asked.dim 0 }
    ensures numbers { AreNumbers result (kept_number model.now cube (kinds_asked asked.entry) asked.entry.place
        asked.entry.dim element) }
    ensures size { AreWithin result (2 ^ 40) }
{
    let own = KindScale {
        model,
        cube,
        kind: asked.own,
        place: asked.place,
    };
    let its = KindScale {
        model,
        cube,
        kind: asked.its,
        place: asked.place,
    };
    let own = worth(own, asked.dim, element);
    let its = worth(its, asked.dim, element);
    let leaf = is_leaf_element(model, cube, asked.dim, element);
    of_kind(leaf, difference(u64::from(its), own))
}

// Of that dimension: the greatest numbers of a component of weight other than 0.
fn component_numbers(model: &Model, cube: u32, asked: Question, element: u32) -> Numbers
    requires cube { cube < length model.now.space.cubes }
    requires dim { asked.dim < length (axes model.now.space cube) }
    requires element { element < slice_index_or (sizes model.now.space cube) asked.dim 0 }
    ensures numbers { AreNumbers result (λ leaf. components_number model.now cube (kinds_asked asked.entry)
        asked.entry.place asked.entry.dim element leaf (parts_in (axes model.now.space cube) asked.entry.dim element)) }
    ensures size { AreWithin result (2 ^ 40) }
{
    let parts = axis(model, cube, asked.dim).components(element);
    let own = KindScale {
        model,
        cube,
        kind: asked.own,
        place: asked.place,
    };
    let worth = worth(own, asked.dim, element);
    let mut best = no_numbers();
    'each: for k in 0..parts.len() {
        let part = &parts[k];
        best = larger_numbers(component_number(model, cube, asked, worth, part), best);
    }
    best
}

// The numbers of one component, by what its element adds.
fn component_number(
    model: &Model,
    cube: u32,
    asked: Question,
    own: u32,
    part: &(u32, i64),
) -> Numbers
    requires cube { cube < length model.now.space.cubes }
    requires dim { asked.dim < length (axes model.now.space cube) }
    requires element { part.now.0 < slice_index_or (sizes model.now.space cube) asked.dim 0 }
    ensures numbers { (element : ℕ)
        → own ≡ (scale_of model.now cube asked.entry.own asked.entry.place).worth asked.entry.dim element
        → AreNumbers result (λ leaf. component_number model.now cube (kinds_asked asked.entry) asked.entry.place
        asked.entry.dim element leaf part.now) }
    ensures size { AreWithin result (2 ^ 40) }
{
    if part.1 == 0 {
        return no_numbers();
    }
    let its = KindScale {
        model,
        cube,
        kind: asked.its,
        place: asked.place,
    };
    let its = worth(its, asked.dim, part.0);
    let leaf = is_leaf_element(model, cube, asked.dim, part.0);
    of_kind(leaf, difference(u64::from(its), own))
}

// What the cell that a reference names has, whatever elements its cell has.
fn named_start(model: &Model, cube: u32, asked: Question, reference: &Reference) -> u64
    requires cube { cube < length model.now.space.cubes }
    requires read { IsReference model.now.space cube reference.now }
    ensures value { result ≡ (scale_of model.now reference.now.cube asked.entry.its asked.entry.place).base
        + fixed_sum (scale_of model.now reference.now.cube asked.entry.its asked.entry.place).worth 0
        reference.now.args }
    ensures size { result ≤ 2 ^ 38 }
{
    let _space = model.space();
    let its = KindScale {
        model,
        cube: reference.cube,
        kind: asked.its,
        place: asked.place,
    };
    u64::from(base(its)) + fixed_sum(its, cube, reference, 0)
}

/// What the cell that is read has more than its cell, whatever elements that has.
pub fn start(model: &Model, cube: u32, asked: Question) -> Option<i64>
    requires cube { cube < length model.now.space.cubes }
    requires read { IsPrecedent model.now.space cube (precedent_of asked.read) }
    ensures value { result ≡ Some (start_by_kinds model.now cube (kinds_asked asked.entry) asked.entry.place
        (precedent_of asked.entry.read)) }
    ensures size { IfSome result (λ n. unsigned_abs n ≤ 2 ^ 40) }
{
    let own = KindScale {
        model,
        cube,
        kind: asked.own,
        place: asked.place,
    };
    let own = base(own);
    match asked.read {
        Read::Cell(reference) => difference(named_start(model, cube, asked, reference), own),
        Read::Children(_) => {
            let its = KindScale {
                model,
                cube,
                kind: asked.its,
                place: asked.place,
            };
            difference(u64::from(base(its)), own)
        }
    }
}

/// Whether what is named from every cell is a leaf, wherever an element is.
pub fn names_leaves(model: &Model, cube: u32, read: Read) -> bool
    requires read { IsPrecedent model.now.space cube (precedent_of read) }
    ensures { kinds_before model.now (precedent_of read.entry) ≡ record { own = true; its = result } }
{
    match read {
        Read::Cell(reference) => fixed_leaves(model, cube, reference, 0),
        Read::Children(_) => true,
    }
}

fn difference(its: u64, own: u32) -> Option<i64>
    requires { its ≤ 2 ^ 38 }
    ensures value { result ≡ Some (pos its -ℤ pos own) }
    ensures size { IfSome result (λ n. unsigned_abs n ≤ 2 ^ 40) }
{
    Some(its as i64 - i64::from(own))
}

fn minus(own: u32) -> Option<i64>
    ensures value { result ≡ Some (neg_ℤ (pos own)) }
    ensures size { IfSome result (λ n. unsigned_abs n ≤ 2 ^ 32) }
{
    Some(-i64::from(own))
}
