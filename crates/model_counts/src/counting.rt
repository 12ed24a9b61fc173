ghost use Rattle.std.specs.Prelude.{◌≡◌, ◌+◌, length, IfOk};
ghost use Rattle.model_counts.specs.Counts.{accepted_line, accepted_text, feeder_count, feeder_statements};
ghost use Rattle.model_counts.specs.Counts.{statement_count};

use rule_model::{Feeder, Model};
use std::alloc::{AllocError, Global};

/// The line `accepted cubes A statements B feeders C`, with its line end: how many cubes, statements and feeder
/// statements the model has. A rule file that two cubes name counts for each of them.
pub fn accepted_text(alloc: Global, model: &Model) -> Result<Vec<u8>, AllocError>
    ensures { IfOk result (λ text. text.items ≡ accepted_text model.now) }
{
    let cubes = cubes(model);
    let statements = statements(model)?;
    let feeders = feeders(model)?;
    accepted_line(alloc, cubes, statements, feeders)
}

fn accepted_line(
    alloc: Global,
    cubes: u32,
    statements: u64,
    feeders: u64,
) -> Result<Vec<u8>, AllocError>
    ensures { IfOk result (λ text. text.items ≡ accepted_line cubes statements feeders) }
{
    let mut text = Vec::from_slice(alloc, b"accepted cubes ")?;
    let counts = format!(in alloc; "{cubes} statements {statements} feeders {feeders}\n")?;
    text.extend_from_slice(counts.as_bytes())?;
    Ok(text)
}

fn cubes(model: &Model) -> u32
    ensures { result ≡ length model.now.space.cubes }
{
    model.space().cubes()
}

fn statements(model: &Model) -> Result<u64, AllocError>
    ensures { IfOk result (λ count. count ≡ statement_count model.now) }
{
    let mut count: u64 = 0;
    for cube in 0..model.space().cubes() {
        count = plus(count, model.rules(cube).statements.as_slice().len() as u64)?;
    }
    Ok(count)
}

fn feeders(model: &Model) -> Result<u64, AllocError>
    ensures { IfOk result (λ count. count ≡ feeder_count model.now) }
{
    let mut count: u64 = 0;
    for cube in 0..model.space().cubes() {
        count = plus(
            count,
            feeder_statements(model.rules(cube).feeders.as_slice()),
        )?;
    }
    Ok(count)
}

// A sum that 64 bits don't hold is one of more than there is memory for.
fn plus(count: u64, more: u64) -> Result<u64, AllocError>
    ensures { IfOk result (λ sum. sum ≡ count + more) }
{
    match count.checked_add(more) {
        Some(sum) => Ok(sum),
        None => Err(AllocError),
    }
}

/// How many feeder statements these feeders come from.
pub fn feeder_statements(feeders: &[Feeder]) -> u64
    ensures { result ≡ feeder_statements feeders.now }
{
    let mut count: u64 = 0;
    for feeder in feeders {
        count = count.max(u64::from(feeder.statement) + 1);
    }
    count
}
