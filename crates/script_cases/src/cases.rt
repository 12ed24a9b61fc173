use crate::memory::MemoryCells;
use crate::scene::Scene;
use case_lines::write_answer;
use cube_fixed::{Value, print};
use lists::ListOf;
use script_bind::bind;
use script_reader::parse;
use script_run::{BoundScript, Ran, Reject, run};
use std::alloc::{AllocError, Global};
use user_text::rows;

/// Writes the answer to a case of these lines.
pub fn answer_load(alloc: Global, lines: &str, out: &mut Vec<u8>) -> Result<(), AllocError> {
    let mut scene = Scene::new(alloc);
    for line in lines.lines() {
        if !scene.add(alloc, line)? {
            return write_answer(out, b"a line of this case says nothing");
        }
    }
    answer_scene(alloc, scene, out)
}

fn answer_scene(alloc: Global, scene: Scene, out: &mut Vec<u8>) -> Result<(), AllocError> {
    match parse(alloc, &scene.script) {
        Ok(script) => answer_script(alloc, &bind(alloc, &script)?, scene, out),
        Err(fault) => {
            let line = format!(in alloc; "{fault:?}")?;
            write_answer(out, line.as_bytes())
        }
    }
}

fn answer_script(
    alloc: Global,
    script: &BoundScript,
    scene: Scene,
    out: &mut Vec<u8>,
) -> Result<(), AllocError> {
    let mut cells = MemoryCells {
        cells: ListOf::new(scene.cells),
        dimensions: ListOf::new(scene.dimensions),
        attributes: ListOf::new(scene.attributes),
        writes: Vec::new(alloc),
        stored: scene.stored,
        fed: scene.fed,
    };
    let records = rows(alloc, &scene.file, scene.separator, 0)?;
    let ran = run(
        alloc,
        script,
        records.behind(0),
        scene.decimal,
        scene.rejects,
        &scene.params,
        &mut cells,
    )?;
    write_ran(alloc, &ran, out)?;
    for (cell, number) in &cells.writes {
        let line = write_text(alloc, &cells, *cell, Value::Num(*number))?;
        write_answer(out, &line)?;
    }
    Ok(())
}

fn write_ran(alloc: Global, ran: &Ran, out: &mut Vec<u8>) -> Result<(), AllocError> {
    match ran {
        Ran::Done(rejects) => {
            write_answer(out, b"done")?;
            for reject in rejects.as_slice() {
                write_reject(alloc, reject, out)?;
            }
            Ok(())
        }
        Ran::Rejected {
            section,
            row,
            statement,
            reason,
        } => {
            let line = format!(in alloc;
                "rejected {section:?} record {row} statement {statement} {reason:?}"
            )?;
            write_answer(out, line.as_bytes())
        }
    }
}

/// A record that was passed over.
fn write_reject(alloc: Global, reject: &Reject, out: &mut Vec<u8>) -> Result<(), AllocError> {
    let Reject {
        row,
        statement,
        reason,
    } = reject;
    let line = format!(in alloc; "passed over record {row} statement {statement} {reason:?}")?;
    write_answer(out, line.as_bytes())
}

/// A write: the names of the cell, and the number.
fn write_text(
    alloc: Global,
    cells: &MemoryCells,
    cell: u64,
    number: Value,
) -> Result<Vec<u8>, AllocError> {
    let mut line = Vec::new(alloc);
    if let Some(listed) = cells.cells.as_slice().get(cell as usize) {
        line.extend_from_slice(listed.names.as_slice())?;
        line.push(b' ')?;
    }
    print(alloc, number, &mut line)?;
    Ok(line)
}
