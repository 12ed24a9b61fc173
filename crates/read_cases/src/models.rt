ghost use Rattle.std.specs.Prelude.{◌≡◌, ◌+◌, length, IfOk, OnOk};

use case_lines::Texts;
use cell_reader::Snapshot;
use model_bind::RuleFiles;
use model_deploy::deploy;
use std::alloc::{AllocError, Global};
use std::sync::Arc;

/// The text of a case's file; an empty one where there is none.
pub fn file(alloc: Global, lines: &str, name: &str) -> Result<Vec<u8>, AllocError> {
    for file in lines
        .strip_prefix("file ")
        .unwrap_or(lines)
        .split("\nfile ")
    {
        if let Some((other, lines)) = file.split_once('\n')
            && other == name
            && let Some(text) = Texts::new(alloc).text_of(alloc, lines)?
        {
            return Ok(text);
        }
    }
    Ok(Vec::new(alloc))
}

/// The opening snapshot of a case's model, if that is accepted.
pub fn snapshot_of(alloc: Global, lines: &str) -> Result<Option<Snapshot>, AllocError> {
    let Ok(text) = model_text::read(alloc, &file(alloc, lines, "model")?) else {
        return Ok(None);
    };
    let first = file(alloc, lines, "rules")?;
    let others = file(alloc, lines, "rules 2")?;
    let rules = rule_files(alloc, &first, &others, text.cubes().len())?;
    match deploy(alloc, text, &rules) {
        Ok(accepted) => Ok(Some(Snapshot::first(alloc, Arc::new(alloc, accepted)?)?)),
        Err(_) => Ok(None),
    }
}

// The rule files of these texts: one of the first cube, and one that all others share.
fn rule_files<'a>(
    alloc: Global,
    first: &'a [u8],
    others: &'a [u8],
    cubes: usize,
) -> Result<RuleFiles<'a>, AllocError>
    ensures { IfOk result (λ all. length all ≡ cubes) }
{
    let mut all = RuleFiles::new(alloc);
    for cube in 0..cubes {
        add_file(first, others, cube, &mut all)?;
    }
    Ok(all)
}

// Adds the rule file of a cube to those of the cubes before it.
fn add_file<'a>(
    first: &'a [u8],
    others: &'a [u8],
    cube: usize,
    all: &mut RuleFiles<'a>,
) -> Result<(), AllocError>
    requires { length all.old ≡ cube }
    ensures { OnOk result (length all.new ≡ length all.old + 1) }
{
    if cube == 0 {
        return Ok(all.push_file(b"rules", first)?);
    }
    if cube == 1 {
        return Ok(all.push_file(b"rules 2", others)?);
    }
    Ok(all.push_shared(1)?)
}
