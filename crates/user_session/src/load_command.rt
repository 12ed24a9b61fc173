ghost use Rattle.std.specs.Prelude.{◌≡◌, ◌++◌, length, IfOk, OnOk};
ghost use Rattle.std.specs.List.{flat_map};
ghost use Rattle.history.specs.declared.effect.Effect.TheVariants as effects;
ghost use Rattle.user_session.specs.Content.{content_of};
ghost use Rattle.user_session.specs.Planning.{load_effect};
ghost use Rattle.user_session.specs.RejectedLoad.{cause_text, reject_line, rejects_text, section_text, stopped_text};
ghost use Rattle.user_session.specs.RejectedLoad.{told_rejects};
ghost use Rattle.user_session.specs.Replies.{reply_text};
ghost use Rattle.user_session.specs.declared.reply.Reply.TheVariants.{Committed};

use crate::reply::Reply;
use crate::world::PlanEffect;
use cell_reader::{Snapshot, Work};
use cube_fixed::Money;
use history::Effect;
use lists::ListOf;
use load_cells::LoadCells;
use script_bound::BoundScript;
use script_run::{Ran, Reject, run};
use script_tree::Section;
use script_values::LoadReason;
use std::alloc::{AllocError, Global};
use user_text::LoadJob;

/// The effect of a LOAD: for each cell that it writes the last number, or why none of its writes is kept.
pub(crate) fn load(
    alloc: Global,
    state: &mut Snapshot,
    job: &LoadJob,
    script: &BoundScript,
) -> Result<PlanEffect, AllocError>
    ensures effect { IfOk result (λ found. found ≡ load_effect (content_of state.old) job.now script.now) }
    ensures kept { content_of state.new ≡ content_of state.old }
{
    let work = Work::over(alloc, state)?;
    let mut cells = LoadCells::new(alloc, work)?;
    match run(
        alloc,
        script,
        job.rows(),
        job.decimal,
        job.rejects.unwrap_or(0),
        &job.params,
        &mut cells,
    )? {
        Ran::Done(rejects) => {
            let writes = cells.into_work().writes(alloc)?;
            loaded(alloc, writes, job.rejects, rejects.as_slice())
        }
        Ran::Rejected {
            section,
            row,
            statement,
            reason,
        } => {
            let text = stopped_text(alloc, section, row, statement, reason)?;
            Ok(Effect::Rejected(ListOf::new(text)))
        }
    }
}

// A load is accepted with these writes. Where it says how many records may be passed over, the reply lists those that
// were.
fn loaded(
    alloc: Global,
    writes: Vec<(u64, Money)>,
    most: Option<u32>,
    rejects: &[Reject],
) -> Result<PlanEffect, AllocError>
    ensures { IfOk result (λ found. found ≡ effects.Commit writes.items
        (reply_text (Committed (length writes.items)) ++ told_rejects most rejects.now)) }
{
    let reply = Reply::Committed(writes.len() as u64).text(alloc)?;
    let reply = match most {
        None => reply,
        Some(_) => ListOf::new(with_rejects(alloc, reply.as_slice(), rejects)?),
    };
    Ok(Effect::Commit(ListOf::new(writes), reply))
}

// The text, ` rejects N`, and a line for each of the records that were passed over.
fn with_rejects(alloc: Global, head: &[u8], rejects: &[Reject]) -> Result<Vec<u8>, AllocError>
    ensures { IfOk result (λ text. text.items ≡ head.now ++ rejects_text rejects.now) }
{
    let count = rejects.len();
    let told = format!(in alloc; " rejects {count}")?;
    let mut text = Vec::from_slice(alloc, head)?;
    text.extend_from_slice(told.as_bytes())?;
    push_rejects(alloc, &mut text, rejects)?;
    Ok(text)
}

// Appends a line for each of these records.
fn push_rejects(alloc: Global, text: &mut Vec<u8>, rejects: &[Reject]) -> Result<(), AllocError>
    ensures { OnOk result (text.new.items ≡ text.old.items ++ flat_map reject_line rejects.now) }
{
    'each: for index in 0..rejects.len() {
        let line = reject_line(alloc, rejects[index])?;
        text.extend_from_slice(&line)?;
    }
    Ok(())
}

// A line end, and `Data record R statement S REASON`.
fn reject_line(alloc: Global, reject: Reject) -> Result<Vec<u8>, AllocError>
    ensures { IfOk result (λ text. text.items ≡ reject_line reject) }
{
    let row = reject.row;
    let statement = reject.statement;
    let reason = cause_name(reject.reason);
    let text = format!(in alloc; "\nData record {row} statement {statement} {reason}")?;
    Ok(text.into_bytes())
}

// `rejected SECTION record R statement S REASON`.
fn stopped_text(
    alloc: Global,
    section: Section,
    row: u32,
    statement: u32,
    reason: LoadReason,
) -> Result<Vec<u8>, AllocError>
    ensures { IfOk result (λ text. text.items ≡ stopped_text section row statement reason) }
{
    let section = section_name(section);
    let reason = cause_name(reason);
    let text = format!(in alloc; "rejected {section} record {row} statement {statement} {reason}")?;
    Ok(text.into_bytes())
}

fn section_name(section: Section) -> &'static str
    ensures { result.now ≡ section_text section }
{
    match section {
        Section::Prolog => "Prolog",
        Section::Body => "Data",
        Section::Epilog => "Epilog",
    }
}

fn cause_name(reason: LoadReason) -> &'static str
    ensures { result.now ≡ cause_text reason }
{
    match reason {
        LoadReason::UnknownName => "UnknownName",
        LoadReason::NotALeaf => "NotALeaf",
        LoadReason::RuleDerived => "RuleDerived",
        LoadReason::NotANumber => "NotANumber",
        LoadReason::OverWrite => "OverWrite",
        LoadReason::ProcessError => "ProcessError",
        LoadReason::StepLimit => "StepLimit",
        LoadReason::StoreLimit(_) => "StoreLimit",
        LoadReason::FedLimit(_) => "FedLimit",
        LoadReason::UnsetVariable => "UnsetVariable",
        LoadReason::TypeMismatch => "TypeMismatch",
        LoadReason::TextLimit => "TextLimit",
    }
}
