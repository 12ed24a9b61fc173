ghost use Rattle.std.specs.Prelude.{◌≡◌, IfOk};
ghost use Rattle.std.proofs.Props.{props};
ghost use Rattle.cell_reader.specs.Works.{opening_of, writes_of};
ghost use Rattle.load_cells.specs.Found.{AreFound};
ghost use Rattle.load_cells.specs.Loads.{reason_of};

use crate::elements;
use crate::found::FoundNames;
use crate::names::cell_by_texts;
use crate::zeros::zero_out;
use cell_reader::{Closed, NextFault, Work, why_closed};
use cube_fixed::Value;
use lists::ListOf;
use script_values::{LoadReason, Text, WorkCells};
use std::alloc::{AllocError, Global};

/// The work of a load, whose cells have names.
#[derive(Drop)]
pub struct LoadCells {
    work: Work,
    names: FoundNames,
    ghost found: { AreFound (opening_of work).model.space names } by { Prim.hlevel props },
}

impl LoadCells {
    /// The cells of this work, by names.
    pub fn new(alloc: Global, work: Work) -> Result<LoadCells, AllocError>
        ensures { IfOk result (λ cells. cells.work ≡ work) }
    {
        let names = FoundNames::new(alloc, work.model().space())?;
        Ok(LoadCells { work, names })
    }

    /// The work, with what was written.
    pub fn into_work(self) -> Work
        ensures { result ≡ self.work }
    {
        self.work
    }
}

impl WorkCells for LoadCells {
    ghost use Rattle.cell_reader.specs.Works.{opening_of, writes_of};
    ghost use Rattle.load_cells.specs.Loads.{store_of};

    ghost store = { λ cells. store_of (opening_of cells.work).model (opening_of cells.work).stored };

    ghost writes = { λ cells. writes_of cells.work };

    fn get(
        &mut self,
        alloc: Global,
        cube: &[u8],
        elements: &[Text<'_>],
    ) -> Result<Result<Value, LoadReason>, AllocError> {
        match cell_by_texts(alloc, self.work.model(), &mut self.names, cube, elements)? {
            Some(cell) => {
                let value = self.work.get(alloc, cell)?;
                Ok(Ok(value))
            }
            None => Ok(Err(LoadReason::UnknownName)),
        }
    }

    fn put(
        &mut self,
        alloc: Global,
        cube: &[u8],
        elements: &[Text<'_>],
        value: Value,
    ) -> Result<Option<LoadReason>, AllocError> {
        let model = self.work.model();
        let Some(cell) = cell_by_texts(alloc, model, &mut self.names, cube, elements)? else {
            return Ok(Some(LoadReason::UnknownName));
        };
        if let Some(closed) = why_closed(model, cell) {
            return Ok(Some(reason_of(closed)));
        }
        let Value::Num(number) = value else {
            return Ok(Some(LoadReason::OverWrite));
        };
        match self.work.put(alloc, cell, number) {
            Ok(()) => Ok(None),
            Err(NextFault::StoreLimit(count)) => Ok(Some(LoadReason::StoreLimit(count))),
            Err(NextFault::FedLimit(count)) => Ok(Some(LoadReason::FedLimit(count))),
            Err(NextFault::Memory) => Err(AllocError),
        }
    }

    fn is_updateable(
        &mut self,
        alloc: Global,
        cube: &[u8],
        elements: &[Text<'_>],
    ) -> Result<bool, AllocError> {
        let model = self.work.model();
        match cell_by_texts(alloc, model, &mut self.names, cube, elements)? {
            Some(cell) => match why_closed(model, cell) {
                None => Ok(true),
                Some(_) => Ok(false),
            },
            None => Ok(false),
        }
    }

    fn element_count(
        &mut self,
        alloc: Global,
        dimension: &[u8],
    ) -> Result<Result<usize, LoadReason>, AllocError> {
        let space = self.work.model().space();
        elements::element_count(alloc, space, &mut self.names, dimension)
    }

    fn element_name(
        &mut self,
        alloc: Global,
        dimension: &[u8],
        place: usize,
    ) -> Result<Result<Option<ListOf<u8>>, LoadReason>, AllocError> {
        let space = self.work.model().space();
        elements::element_name(alloc, space, &mut self.names, dimension, place)
    }

    fn element_place(
        &mut self,
        alloc: Global,
        dimension: &[u8],
        element: &[u8],
    ) -> Result<Result<Option<usize>, LoadReason>, AllocError> {
        let space = self.work.model().space();
        elements::element_place(alloc, space, &mut self.names, dimension, element)
    }

    fn is_leaf_element(
        &mut self,
        alloc: Global,
        dimension: &[u8],
        element: &[u8],
    ) -> Result<Result<Option<bool>, LoadReason>, AllocError> {
        let space = self.work.model().space();
        elements::is_leaf_element(alloc, space, &mut self.names, dimension, element)
    }

    fn attribute(
        &mut self,
        alloc: Global,
        dimension: &[u8],
        element: &[u8],
        name: &[u8],
    ) -> Result<Result<Option<ListOf<u8>>, LoadReason>, AllocError> {
        let space = self.work.model().space();
        elements::attribute(alloc, space, &mut self.names, dimension, element, name)
    }

    fn is_ancestor(
        &mut self,
        alloc: Global,
        dimension: &[u8],
        above: &[u8],
        element: &[u8],
    ) -> Result<Result<Option<bool>, LoadReason>, AllocError> {
        let space = self.work.model().space();
        elements::is_ancestor(alloc, space, &mut self.names, dimension, above, element)
    }

    fn zero_out(
        &mut self,
        alloc: Global,
        cube: &[u8],
        elements: &[Text<'_>],
    ) -> Result<Option<LoadReason>, AllocError> {
        let model = self.work.model();
        let Some(cell) = cell_by_texts(alloc, model, &mut self.names, cube, elements)? else {
            return Ok(Some(LoadReason::UnknownName));
        };
        let cells = self.work.stored_below(alloc, cell)?;
        zero_out(alloc, &mut self.work, &cells)?;
        Ok(None)
    }

    fn mark(&mut self) -> Result<usize, AllocError> {
        self.work.mark()
    }

    fn back(&mut self, alloc: Global, count: usize) -> Result<(), AllocError> {
        self.work.back(alloc, count)
    }
}

// Why a load that writes into a closed cell is rejected.
fn reason_of(closed: Closed) -> LoadReason
    ensures { result ≡ reason_of closed }
{
    match closed {
        Closed::NotALeaf => LoadReason::NotALeaf,
        Closed::RuleDerived => LoadReason::RuleDerived,
    }
}
