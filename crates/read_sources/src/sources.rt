ghost use Rattle.std.specs.Prelude.{◌≡◌, [], ◌∷◌, ◌++◌, ◌<◌, ◌≤◌, true, false, map, length, slice_get, Some};
ghost use Rattle.std.specs.Prelude.{IfOk, IfErr, OnOk, is_some};
ghost use Rattle.ref_order.specs.Known.{IsKnown, IsKnownOf};
ghost use Rattle.ref_order.specs.Reads.{precedent_of};
ghost use Rattle.arrow_laws.specs.Nodes.{has_kinds};
ghost use Rattle.arrow_laws.specs.Arrows.{IsLevelThroughout};
ghost use Rattle.arrow_laws.specs.ByDimension.{read_cube};
ghost use Rattle.read_sources.specs.declared.fault.ReadFault.TheVariants.{Memory};
ghost use Rattle.read_sources.specs.Sources.{AreSourcesOf, most_sources};
ghost use Rattle.read_sources.specs.Gathering.{reads_for, before_by, earliest, IsStatementAt, IsPart, AreGathered};
ghost use Rattle.read_sources.specs.Gathering.{IsReading, IsTakenFor, IsTakenWhole};
ghost use Rattle.read_sources.specs.Gathering.{Stay, IsStatementTaken, IsCubeTaken, IsTakenIf, IsPartDone};
ghost use Rattle.read_sources.specs.Gathering.{IsStatementFault, IsCubeFault, IsUnlaggedFault};

use crate::fault::ReadFault;
use crate::part::{Part, Seen, look};
use crate::reads::reads_of;
use crate::seek::{Reading, sought};
use crate::source::Source;
use crate::tables::has_kinds;
use crate::ways::read_cube;
use ref_order::{Known, Read};
use rule_model::{Form, Model, Statement};
use std::alloc::Global;

// How many sources there are at most. More would take tens of gigabytes.
const MAX_SOURCES: usize = 536_870_912;

fn add<'a>(sources: &mut Vec<Source<'a>>, source: Source<'a>) -> Result<(), ReadFault>
    ensures added { OnOk result (sources.new.items ≡ sources.old.items ++ source.entry ∷ []) }
    ensures few { OnOk result (length sources.new.items ≤ most_sources) }
    ensures memory { IfErr result (λ fault. fault ≡ Memory) }
{
    if sources.len() >= MAX_SOURCES {
        return Err(ReadFault::Memory);
    }
    match sources.push(source) {
        Ok(()) => Ok(()),
        Err(_) => Err(ReadFault::Memory),
    }
}

// Takes what a reference reads of the cells that are meant.
fn take_kind<'a>(
    known: &mut Known<'a>,
    reading: Reading<'a>,
    its: Option<bool>,
    sources: &mut Vec<Source<'a>>,
) -> Result<(), ReadFault>
    requires reading { IsReading reading }
    requires known { IsKnown reading.part.model.now reading.part.cube reading.part.statement.now.area known.old }
    requires its { is_some its ≡ has_kinds reading.part.model.now
        (read_cube reading.part.cube (precedent_of reading.read)) }
    requires gathered { AreGathered reading.part.model.now reading.part.cube sources.old.items }
    ensures gathered { OnOk result (AreGathered reading.entry.part.model.now reading.entry.part.cube
        sources.new.items) }
    ensures stay { OnOk result (Stay sources.old.items sources.new.items) }
    ensures taken { OnOk result (IsTakenFor reading.entry sources.new.items its) }
    ensures known { OnOk result (IsKnown reading.entry.part.model.now reading.entry.part.cube
        reading.entry.part.statement.now.area known.new) }
    ensures memory { IfErr result (λ fault. fault ≡ Memory) }
{
    match sought(known, reading, its) {
        Some(source) => {
            add(sources, source)?;
            Ok(())
        }
        None => Ok(()),
    }
}

// Takes what a reference reads: leaf cells and consolidated ones apart, where the cells that are read have kinds.
fn take_level<'a>(
    known: &mut Known<'a>,
    reading: Reading<'a>,
    sources: &mut Vec<Source<'a>>,
) -> Result<(), ReadFault>
    requires reading { IsReading reading }
    requires known { IsKnown reading.part.model.now reading.part.cube reading.part.statement.now.area known.old }
    requires gathered { AreGathered reading.part.model.now reading.part.cube sources.old.items }
    ensures gathered { OnOk result (AreGathered reading.entry.part.model.now reading.entry.part.cube
        sources.new.items) }
    ensures stay { OnOk result (Stay sources.old.items sources.new.items) }
    ensures taken { OnOk result (IsTakenWhole reading.entry sources.new.items) }
    ensures known { OnOk result (IsKnown reading.entry.part.model.now reading.entry.part.cube
        reading.entry.part.statement.now.area known.new) }
    ensures memory { IfErr result (λ fault. fault ≡ Memory) }
{
    let part = reading.part;
    if !has_kinds(part.model, read_cube(part.cube, reading.read)) {
        take_kind(known, reading, None, sources)?;
        return Ok(());
    }
    take_kind(known, reading, Some(true), sources)?;
    take_kind(known, reading, Some(false), sources)?;
    Ok(())
}

// Takes one read of a part; false where that may be of a greater lag.
fn take<'a>(
    part: Part<'a>,
    known: &mut Known<'a>,
    read: Read<'a>,
    at: u32,
    sources: &mut Vec<Source<'a>>,
) -> Result<bool, ReadFault>
    requires part { IsPart part }
    requires known { IsKnown part.model.now part.cube part.statement.now.area known.old }
    requires read { slice_get (reads_for part.statement.now part.kind) at ≡ Some (precedent_of read) }
    requires gathered { AreGathered part.model.now part.cube sources.old.items }
    ensures gathered { OnOk result (AreGathered part.entry.model.now part.entry.cube sources.new.items) }
    ensures stay { OnOk result (Stay sources.old.items sources.new.items) }
    ensures taken { IfOk result (IsTakenIf part.entry sources.new.items (precedent_of read.entry)) }
    ensures known { OnOk result (IsKnown part.entry.model.now part.entry.cube part.entry.statement.now.area known.new) }
    ensures memory { IfErr result (λ fault. fault ≡ Memory) }
{
    match look(part, known, read) {
        Seen::Greater => Ok(false),
        Seen::Smaller => Ok(true),
        Seen::Level(weak) => {
            let reading = Reading {
                part,
                read,
                at,
                weak,
            };
            take_level(known, reading, sources)?;
            Ok(true)
        }
    }
}

// Takes what a part reads, up to the first that may be of a greater lag: the number of that.
fn take_part<'a>(
    part: Part<'a>,
    known: &mut Known<'a>,
    reads: &[Read<'a>],
    sources: &mut Vec<Source<'a>>,
) -> Result<Option<u32>, ReadFault>
    requires part { IsPart part }
    requires known { IsKnown part.model.now part.cube part.statement.now.area known.old }
    requires reads { map precedent_of reads.now ≡ reads_for part.statement.now part.kind }
    requires gathered { AreGathered part.model.now part.cube sources.old.items }
    ensures gathered { OnOk result (AreGathered part.entry.model.now part.entry.cube sources.new.items) }
    ensures stay { OnOk result (Stay sources.old.items sources.new.items) }
    ensures done { IfOk result (IsPartDone part.entry sources.new.items) }
    ensures known { OnOk result (IsKnown part.entry.model.now part.entry.cube part.entry.statement.now.area known.new) }
    ensures memory { IfErr result (λ fault. fault ≡ Memory) }
{
    'each: for at in 0..reads.len() {
        if !take(part, known, reads[at], at as u32, sources)? {
            return Ok(Some(part.before + at as u32 + 1));
        }
    }
    Ok(None)
}

// How many references are counted before those of the leaf part, and before those of the other.
fn before(form: Form, leaf: u32, cons: u32) -> (u32, u32)
    ensures { result ≡ (before_by form true leaf cons, before_by form false leaf cons) }
{
    match form {
        Form::Both => (0, 0),
        Form::LeafFirst => (0, leaf),
        Form::ConsFirst => (cons, 0),
    }
}

// The first of two numbers, where both are there.
fn earliest(first: Option<u32>, second: Option<u32>) -> Option<u32>
    ensures { result ≡ earliest first second }
{
    match (first, second) {
        (None, second) => second,
        (Some(first), None) => Some(first),
        (Some(first), Some(second)) => Some(first.min(second)),
    }
}

// Takes what a statement reads.
fn take_statement<'a>(
    alloc: Global,
    model: &'a Model,
    cube: u32,
    statement: &'a Statement,
    number: u32,
    known: &mut Known<'a>,
    sources: &mut Vec<Source<'a>>,
) -> Result<(), ReadFault>
    requires statement { IsStatementAt model.now cube number statement.now }
    requires known { IsKnownOf model.now cube known.old }
    requires gathered { AreGathered model.now cube sources.old.items }
    ensures gathered { OnOk result (AreGathered model.now cube sources.new.items) }
    ensures stay { OnOk result (Stay sources.old.items sources.new.items) }
    ensures taken { OnOk result (IsStatementTaken model.now sources.new.items cube statement.now) }
    ensures known { OnOk result (IsKnownOf model.now cube known.new) }
    ensures refused { IfErr result (IsStatementFault model.now cube number statement.now) }
{
    known.begin();
    let leaf = reads_of(alloc, &statement.leaf)?;
    let cons = reads_of(alloc, &statement.cons)?;
    let (before_leaf, before_cons) = before(statement.form, leaf.len() as u32, cons.len() as u32);
    let part = Part {
        model,
        cube,
        statement,
        number,
        kind: true,
        before: before_leaf,
    };
    let other = Part {
        kind: false,
        before: before_cons,
        ..part
    };
    let first = take_part(part, known, &leaf, sources)?;
    let second = take_part(other, known, &cons, sources)?;
    match earliest(first, second) {
        Some(reference) => Err(ReadFault::Unlagged {
            cube,
            statement: number,
            reference,
        }),
        None => Ok(()),
    }
}

// Takes what the statements of a cube read.
fn take_cube<'a>(
    alloc: Global,
    model: &'a Model,
    cube: u32,
    sources: &mut Vec<Source<'a>>,
) -> Result<(), ReadFault>
    requires cube { cube < length model.now.space.cubes }
    requires gathered { AreGathered model.now cube sources.old.items }
    ensures gathered { OnOk result (AreGathered model.now cube sources.new.items) }
    ensures stay { OnOk result (Stay sources.old.items sources.new.items) }
    ensures taken { OnOk result (IsCubeTaken model.now sources.new.items cube) }
    ensures refused { IfErr result (IsCubeFault model.now cube) }
{
    let _space = model.space();
    let statements = model.rules(cube).statements.as_slice();
    let mut known = Known::none(alloc);
    'each: for n in 0..statements.len() {
        let number = n as u32 + 1;
        take_statement(
            alloc,
            model,
            cube,
            &statements[n],
            number,
            &mut known,
            sources,
        )?;
    }
    Ok(())
}

/// What the statements of a model read at the same lag, cube by cube and statement by statement, or the first reference
/// that may read at a greater lag.
pub fn sources_of<'a>(alloc: Global, model: &'a Model) -> Result<Vec<Source<'a>>, ReadFault>
    ensures sources { IfOk result (λ sources. AreSourcesOf model.now sources.items) }
    ensures level { OnOk result (IsLevelThroughout model.now) }
    ensures refused { IfErr result (IsUnlaggedFault model.now) }
{
    let mut sources = Vec::new(alloc);
    'each: for cube in 0..model.space().cubes() {
        take_cube(alloc, model, cube, &mut sources)?;
    }
    Ok(sources)
}
