ghost use Rattle.std.specs.Prelude.{◌≡◌, ◌<◌, ◌^◌, ◌+◌, ◌==◌, suc, [], IfOk, OnOk, All, length, replicate};
ghost use Rattle.std.specs.List.{list_any};
ghost use Rattle.std.specs.List.Sorted.{IsStrictlyIncreasing};
ghost use Rattle.order_find.specs.Numbers.{IsNumbering};
ghost use Rattle.read_sources.specs.Ways.{IsSource};
ghost use Rattle.order_find.specs.Filing.{Adds, AreFiled, looked_by};

use crate::numbering::Numbering;
use crate::numbers::first_of;
use crate::tables::own_kind;
use lists::ListOf;
use read_sources::{Source, last_of, set_of};
use ref_order::axis;
use rule_model::Model;
use std::alloc::{AllocError, Global};
use std::mem;

// An area lists few elements of a dimension where these are at most one in so many.
const ONE_IN: usize = 16;

/// The sources that are looked at, by their numbers.
#[derive(Drop)]
pub struct Filing {
    /// For each element of a cube, by the cube.
    pub of_cubes: Vec<ListOf<u32>>,
    /// For one element, by the number of its node.
    pub of_nodes: Vec<ListOf<u32>>,
}

/// Files each source: at the elements that its area lists in the last dimension, where these are few, and otherwise at
/// its cube. So what is filed takes little room, and a source is looked at for at most 16 times the elements that its
/// area has.
pub fn file_sources(
    alloc: Global,
    model: &Model,
    numbering: &Numbering,
    sources: &[Source],
) -> Result<Filing, AllocError>
    requires numbering { IsNumbering model.now numbering.now }
    requires sources { All (IsSource model.now) sources.now }
    requires few { length sources.now < 2 ^ 32 }
    ensures { IfOk result (λ filing. AreFiled (looked_by model.now numbering.now sources.now filing)
        (length sources.now)) }
{
    let of_cubes = empty_rows(alloc, numbering.firsts.len())?;
    let of_nodes = empty_rows(alloc, numbering.places.len())?;
    let mut filing = Filing { of_cubes, of_nodes };
    'each: for k in 0..sources.len() {
        file(alloc, model, numbering, sources, k as u32, &mut filing)?;
    }
    Ok(filing)
}

// So many rows with nothing in them.
fn empty_rows(alloc: Global, count: usize) -> Result<Vec<ListOf<u32>>, AllocError>
    ensures { IfOk result (λ rows. rows.items ≡ replicate count []) }
{
    let mut rows = Vec::with_capacity(alloc, count)?;
    'each: for _row in 0..count {
        rows.push(ListOf::new(Vec::new(alloc)))?;
    }
    Ok(rows)
}

// Files the source of this number.
fn file(
    alloc: Global,
    model: &Model,
    numbering: &Numbering,
    sources: &[Source],
    k: u32,
    filing: &mut Filing,
) -> Result<(), AllocError>
    requires numbering { IsNumbering model.now numbering.now }
    requires sources { All (IsSource model.now) sources.now }
    requires k { k < length sources.now }
    requires filed { AreFiled (looked_by model.now numbering.now sources.now filing.old) k }
    ensures { OnOk result (AreFiled (looked_by model.now numbering.now sources.now filing.new) (suc k)) }
{
    let source = sources[k as usize];
    let last = last_of(model, source.cube);
    let size = axis(model, source.cube, last).len();
    match set_of(model, source, last) {
        Some(listed) if listed.as_slice().len() <= size as usize / ONE_IN => {
            let first = first_of(numbering, source.cube, own_kind(model, source));
            add_each(alloc, &mut filing.of_nodes, first, listed.as_slice(), k)
        }
        _ => add(alloc, &mut filing.of_cubes, source.cube as usize, k),
    }
}

// Puts a number at the end of the rows of these elements, which stand from `first` on.
fn add_each(
    alloc: Global,
    rows: &mut [ListOf<u32>],
    first: u32,
    listed: &[u32],
    k: u32,
) -> Result<(), AllocError>
    requires rising { IsStrictlyIncreasing listed.now }
    requires within { All (λ element. first + element < length rows.old) listed.now }
    ensures { OnOk result (Adds (λ n. list_any (λ element. first + element == n) listed.now) k rows.old rows.new) }
{
    'each: for element in listed {
        add(alloc, rows, first as usize + *element as usize, k)?;
    }
    Ok(())
}

// Puts a number at the end of a row.
fn add(alloc: Global, rows: &mut [ListOf<u32>], at: usize, k: u32) -> Result<(), AllocError>
    requires { at < length rows.old }
    ensures { OnOk result (Adds (λ n. at == n) k rows.old rows.new) }
{
    let row = mem::replace(&mut rows[at], ListOf::new(Vec::new(alloc)));
    let mut numbers = row.into_vec();
    numbers.push(k)?;
    rows[at] = ListOf::new(numbers);
    Ok(())
}
