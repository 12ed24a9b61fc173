ghost use Rattle.std.specs.Prelude.{◌≤◌};
ghost use Rattle.user_text.specs.Counting.{most_commands};

use crate::answers::{Answer, Lines, refused, shown};
use dim_name::Name;
use std::alloc::{AllocError, Global};
use user_text::{LoadText, ParamText, SetText, UserBody, UserCommand, ViewText};

/// The commands of a user, behind those of other users.
pub fn user(alloc: Global, text: &[u8], before: u32) -> Result<Answer, AllocError>
    requires { before ≤ most_commands }
{
    match user_text::parse(alloc, text, before) {
        Ok(commands) => {
            let mut lines = Lines::new(alloc);
            for command in &commands {
                add_command(alloc, &mut lines, command)?;
            }
            lines.answer()
        }
        Err(fault) => refused(alloc, &fault),
    }
}

fn add_command(alloc: Global, lines: &mut Lines, command: &UserCommand) -> Result<(), AllocError> {
    let line = command.at.line;
    match &command.body {
        UserBody::Put(cell, number) => {
            let elements = names(alloc, cell.elements.as_slice())?;
            let cube = shown(cell.cube.shown());
            lines.add(&(line, "PUT", cube, elements, number.millionths()));
        }
        UserBody::Get(cell) => {
            let elements = names(alloc, cell.elements.as_slice())?;
            lines.add(&(line, "GET", shown(cell.cube.shown()), elements));
        }
        UserBody::Load(load) => add_load(lines, line, load),
        UserBody::View(view) => return add_view(alloc, lines, line, view),
        UserBody::Spread(cell, amount, how) => {
            let elements = names(alloc, cell.elements.as_slice())?;
            let cube = shown(cell.cube.shown());
            lines.add(&(line, "SPREAD", cube, elements, amount.millionths(), how));
        }
        UserBody::Trace(cell) => {
            let elements = names(alloc, cell.elements.as_slice())?;
            lines.add(&(line, "TRACE", shown(cell.cube.shown()), elements));
        }
        UserBody::Sandbox => lines.add(&(line, "SANDBOX")),
        UserBody::Publish => lines.add(&(line, "PUBLISH")),
        UserBody::Discard => lines.add(&(line, "DISCARD")),
    }
    Ok(())
}

fn add_load(lines: &mut Lines, line: u32, load: &LoadText) {
    let script = shown(load.script.shown());
    match &load.file {
        Some(file) => {
            let file = shown(file.as_slice());
            let signs = (load.separator, load.decimal);
            match load.rejects {
                Some(most) => lines.add(&(line, "LOAD", script, file, load.skip, signs, most)),
                None => lines.add(&(line, "LOAD", script, file, load.skip, signs)),
            }
        }
        None => lines.add(&(line, "LOAD", script)),
    }
    for (word, value) in load.params.as_slice() {
        let word = shown(word.as_slice());
        match value {
            ParamText::Number(number) => lines.add(&(word, number.millionths())),
            ParamText::Text(text) => lines.add(&(word, shown(text.as_slice()))),
        }
    }
}

fn add_view(
    alloc: Global,
    lines: &mut Lines,
    line: u32,
    view: &ViewText,
) -> Result<(), AllocError> {
    lines.add(&(line, "VIEW", shown(view.cube.shown()), view.nozeros));
    add_sets(alloc, lines, "ROWS", view.rows.as_slice())?;
    add_sets(alloc, lines, "COLUMNS", view.columns.as_slice())?;
    for (dim, element) in view.points.as_slice() {
        lines.add(&("AT", shown(dim.shown()), shown(element.shown())));
    }
    Ok(())
}

fn add_sets(
    alloc: Global,
    lines: &mut Lines,
    axis: &str,
    sets: &[SetText],
) -> Result<(), AllocError> {
    for set in sets {
        let dim = shown(set.dim.shown());
        match &set.elements {
            Some(elements) => lines.add(&(axis, dim, names(alloc, elements.as_slice())?)),
            None => lines.add(&(axis, dim)),
        }
    }
    Ok(())
}

fn names<'a>(alloc: Global, names: &'a [Name]) -> Result<Vec<&'a str>, AllocError> {
    let mut all = Vec::new(alloc);
    for name in names {
        all.push(shown(name.shown()))?;
    }
    Ok(all)
}
