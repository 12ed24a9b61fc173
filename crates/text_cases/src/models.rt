use crate::answers::{Answer, Lines, refused, shown};
use cube_space::Space;
use model_bind::no_rule_files;
use model_deploy::deploy;
use model_text::{CubeText, ModelText};
use std::alloc::{AllocError, Global};

/// The lines of a model's dimensions, cubes and scripts.
pub fn lines(alloc: Global, text: &[u8]) -> Result<Answer, AllocError> {
    match model_text::read(alloc, text) {
        Ok(model) => {
            let mut lines = Lines::new(alloc);
            add_model(&mut lines, &model);
            lines.answer()
        }
        Err(fault) => refused(alloc, &fault),
    }
}

fn add_model(lines: &mut Lines, model: &ModelText) {
    lines.add(&("MODEL", model.version()));
    for dim in model.dims() {
        lines.add(&(
            dim.head().line,
            "DIM",
            shown(dim.dimension().name().shown()),
        ));
    }
    for cube in model.cubes() {
        add_cube(lines, cube);
    }
    for script in model.scripts() {
        let name = shown(script.name.shown());
        lines.add(&(
            script.at.line,
            "SCRIPT",
            name,
            shown(script.file.as_slice()),
        ));
    }
}

fn add_cube(lines: &mut Lines, cube: &CubeText) {
    let name = shown(cube.name.shown());
    lines.add(&(cube.at.line, "CUBE", name, cube.dims.as_slice()));
    if let Some((at, file)) = &cube.rules {
        lines.add(&(at.line, "RULES", shown(file.as_slice())));
    }
    if let Some((at, order)) = &cube.order {
        let words = order.words.as_slice().len();
        lines.add(&(at.line, "ORDER", order.version, words));
    }
}

/// The cells of a model's cubes, by number, and the cubes and dimensions that have its scripts' names.
pub fn space(alloc: Global, text: &[u8]) -> Result<Answer, AllocError> {
    match model_text::read(alloc, text) {
        Ok(model) => space_of(alloc, model, text),
        Err(fault) => refused(alloc, &fault),
    }
}

fn space_of(alloc: Global, model: ModelText, text: &[u8]) -> Result<Answer, AllocError> {
    let rules = no_rule_files(alloc, model.cubes().len())?;
    match deploy(alloc, model, &rules) {
        Ok(accepted) => {
            let mut lines = Lines::new(alloc);
            let space = accepted.model().space();
            add_space(&mut lines, space);
            add_scripts(alloc, &mut lines, space, text);
            lines.answer()
        }
        Err(fault) => refused(alloc, &fault),
    }
}

fn add_space(lines: &mut Lines, space: &Space) {
    lines.add(&(space.cubes(), space.dimensions(), space.size()));
    for cube in 0..space.cubes() {
        let shape = space.shape(cube);
        let (cells, first) = (space.cells(cube), space.first(cube));
        let name = shown(shape.name.shown());
        lines.add(&(cube, name, shape.dims.as_slice(), cells, first));
    }
    for cell in 0..space.size().min(32) {
        add_cell(lines, space, cell);
    }
    for cube in 0..=space.cubes() {
        let numbers = [
            space.number(cube, &[0, 0]),
            space.number(cube, &[3, 0]),
            space.number(cube, &[0]),
            space.number(cube, &[0, 0, 0]),
        ];
        lines.add(&(cube, numbers));
    }
}

// A cell by its number, which is found again by the cell's place.
fn add_cell(lines: &mut Lines, space: &Space, cell: u64) {
    if cell >= space.size() {
        return;
    }
    let mut at = [9; 16];
    let cube = space.place(cell, &mut at);
    if cube >= space.cubes() {
        return;
    }
    let dims = space.shape(cube).dims.as_slice().len();
    let place = &at[..dims.min(16)];
    let (is_leaf, number) = (space.is_leaf(cell), space.number(cube, place));
    lines.add(&(cell, is_leaf, cube, place, at[15], number));
}

// Deployment takes the model, so its scripts are read again.
fn add_scripts(alloc: Global, lines: &mut Lines, space: &Space, text: &[u8]) {
    match model_text::read(alloc, text) {
        Ok(model) => {
            for script in model.scripts() {
                let name = &script.name;
                let (cube, dimension) = (space.cube_of(name), space.dimension_of(name));
                lines.add(&(shown(name.shown()), cube, dimension));
            }
        }
        Err(fault) => lines.add(&fault),
    }
}
