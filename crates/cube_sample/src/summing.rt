ghost use Rattle.std.specs.Prelude.{◌≡◌, IfOk};
ghost use Rattle.cube_sample.specs.Summary.{summary_text};

use cube_fixed::{Value, print};
use std::alloc::{AllocError, Global};

/// The five lines of a sample's summary, for the numbers of stored and of fed cells and the totals of units and sales.
pub fn summary(
    alloc: Global,
    size: u32,
    stored: u64,
    fed: u64,
    units: Value,
    sales: Value,
) -> Result<Vec<u8>, AllocError>
    ensures { IfOk result (λ text. text.items ≡ summary_text size stored fed units sales) }
{
    let head = format!(in alloc; "sample {size}\nstored {stored}\nfed {fed}\nUnits ")?;
    let mut text = head.into_bytes();
    print(alloc, units, &mut text)?;
    text.extend_from_slice(b"\nSales ")?;
    print(alloc, sales, &mut text)?;
    text.push(b'\n')?;
    Ok(text)
}
