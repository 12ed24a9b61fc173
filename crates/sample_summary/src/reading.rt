ghost use Rattle.std.specs.Prelude.{◌≡◌, IfOk};
ghost use Rattle.std.specs.Option.{option_map};
ghost use Rattle.cell_reader.specs.Snapshots.{version_of};
ghost use Rattle.sample_summary.specs.Reading.{summary_on, total_on};

use cell_reader::Snapshot;
use cube_fixed::Value;
use cube_sample::summary;
use dim_name::Name;
use rule_model::cell_of;
use std::alloc::{AllocError, Global};

/// The name that a text is. Each text here is one, so that only memory is wanting.
fn named(alloc: Global, text: &[u8]) -> Result<Name, AllocError>
    ensures { IfOk result (λ name. name ≡ text.now) }
{
    match Name::new(alloc, text) {
        Ok(name) => Ok(name),
        Err(_) => Err(AllocError),
    }
}

/// The total of a measure over all products and months, where the model has such a cell.
fn total_of(
    alloc: Global,
    snapshot: &mut Snapshot,
    measure: &[u8],
) -> Result<Option<Value>, AllocError>
    ensures total { IfOk result (λ total. total ≡ total_on (version_of snapshot.old) measure.now) }
    ensures version { version_of snapshot.new ≡ version_of snapshot.old }
{
    let shop = named(alloc, b"Shop")?;
    let elements = [
        named(alloc, b"Total")?,
        named(alloc, b"Year")?,
        named(alloc, measure)?,
    ];
    match cell_of(snapshot.model(), &shop, &elements) {
        Some(cell) => Ok(Some(snapshot.value_at(alloc, cell)?)),
        None => Ok(None),
    }
}

/// The five lines of the summary. None where the model isn't a sample's: it hasn't the two cells that are printed.
pub fn sample_text(
    alloc: Global,
    snapshot: &mut Snapshot,
    size: u32,
) -> Result<Option<Vec<u8>>, AllocError>
    ensures text { IfOk result (λ text.
        option_map (λ text. text.items) text ≡ summary_on (version_of snapshot.old) size) }
    ensures version { version_of snapshot.new ≡ version_of snapshot.old }
{
    let stored = snapshot.store().len();
    let fed = snapshot.fed().count();
    let Some(units) = total_of(alloc, snapshot, b"Units")? else {
        return Ok(None);
    };
    let Some(sales) = total_of(alloc, snapshot, b"Sales")? else {
        return Ok(None);
    };
    Ok(Some(summary(alloc, size, stored, fed, units, sales)?))
}
