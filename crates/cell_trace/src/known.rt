ghost use Rattle.std.specs.Prelude.{◌≡◌, ◌++◌, [], true, None, IfOk, OnOk};
ghost use Rattle.cell_trace.specs.Inside.Place.{children_at, has_components_at, stet_at};
ghost use Rattle.cell_trace.specs.Inside.Parts.{own_lines_at, part_lines_at};
ghost use Rattle.cell_trace.specs.Inside.Sums.{IsReady, IsSumAt};

use crate::here::Here;
use crate::line::Line;
use crate::sums::Summed;
use cell_reader::Snapshot;
use cube_fixed::Value;
use std::alloc::{AllocError, Global};

/// What is worked out so far of what is added up for the cell, so that each sum is worked out once.
#[derive(Drop)]
pub(crate) struct Known {
    /// The sum of the leaf cells below the cell.
    pub own: Option<Summed>,
    /// The sums over the components of its element, in some dimensions.
    pub children: Vec<SumIn>,
}

/// The sum over the components of the cell's element in a dimension.
#[derive(Drop)]
pub(crate) struct SumIn {
    pub dim: u32,
    pub sum: Summed,
}

impl Known {
    pub(crate) fn new(alloc: Global) -> Known
        ensures own { result.own ≡ None }
        ensures children { result.children.items ≡ [] }
    {
        Known {
            own: None,
            children: Vec::new(alloc),
        }
    }
}

/// What `STET` gives.
pub(crate) fn stet(
    here: &Here,
    known: &mut Known,
    reader: &mut Snapshot,
) -> Result<Value, AllocError>
    requires { IsReady here.now known.old reader.old }
    ensures value { IfOk result (λ value. value ≡ stet_at here.now) }
    ensures ready { IsReady here.now known.new reader.new }
{
    if here.is_leaf() {
        return Ok(here.number());
    }
    match &known.own {
        Some(sum) => Ok(sum.value),
        None => {
            let sum = here.sum_of_leaves(reader)?;
            let value = sum.value;
            known.own = Some(sum);
            Ok(value)
        }
    }
}

/// The lines of what the cell would have if no statement governed it.
pub(crate) fn put_own_lines(
    here: &Here,
    known: &mut Known,
    reader: &mut Snapshot,
    lines: &mut Vec<Line>,
) -> Result<(), AllocError>
    requires { IsReady here.now known.old reader.old }
    ensures lines { OnOk result (lines.new.items ≡ lines.old.items ++ own_lines_at here.now) }
    ensures ready { IsReady here.now known.new reader.new }
{
    if here.is_leaf() {
        lines.push(Line::Input(here.has_number()))?;
        return Ok(());
    }
    lines.push(Line::Sum)?;
    match &known.own {
        Some(sum) => lines.extend_from_slice(&sum.lines),
        None => {
            let sum = here.sum_of_leaves(reader)?;
            lines.extend_from_slice(&sum.lines)
        }
    }
}

// The place of the sum in this dimension among those that are known, which it is put into where it isn't there.
fn place_of_sum(
    here: &Here,
    dim: u32,
    known: &mut Known,
    reader: &mut Snapshot,
) -> Result<usize, AllocError>
    requires components { has_components_at here.now dim ≡ true }
    requires ready { IsReady here.now known.old reader.old }
    ensures sum { IfOk result (IsSumAt here.now dim known.new.children.items) }
    ensures ready { IsReady here.now known.new reader.new }
{
    for (place, one) in known.children.iter().enumerate() {
        if one.dim == dim {
            return Ok(place);
        }
    }
    let sum = here.sum_of_components(dim, reader)?;
    known.children.push(SumIn { dim, sum })?;
    Ok(known.children.len() - 1)
}

/// What `ConsolidateChildren` gives in a dimension.
pub(crate) fn children(
    here: &Here,
    dim: u32,
    known: &mut Known,
    reader: &mut Snapshot,
) -> Result<Value, AllocError>
    requires { IsReady here.now known.old reader.old }
    ensures value { IfOk result (λ value. value ≡ children_at here.now dim) }
    ensures ready { IsReady here.now known.new reader.new }
{
    if !here.has_components(dim) {
        return stet(here, known, reader);
    }
    let place = place_of_sum(here, dim, known, reader)?;
    Ok(known.children[place].sum.value)
}

/// The lines of the components in a dimension.
pub(crate) fn put_part_lines(
    here: &Here,
    dim: u32,
    known: &mut Known,
    reader: &mut Snapshot,
    lines: &mut Vec<Line>,
) -> Result<(), AllocError>
    requires { IsReady here.now known.old reader.old }
    ensures lines { OnOk result (lines.new.items ≡ lines.old.items ++ part_lines_at here.now dim) }
    ensures ready { IsReady here.now known.new reader.new }
{
    if !here.has_components(dim) {
        return Ok(());
    }
    let place = place_of_sum(here, dim, known, reader)?;
    lines.extend_from_slice(&known.children[place].sum.lines)
}
