ghost use Rattle.std.specs.Prelude.{◌≡◌, ◌≤◌, ◌++◌, IfOk, OnOk, codes};
ghost use Rattle.cube_sample.specs.Sample.{products_of, price_line, record_line, repeated, units_line};

use crate::generator::Generator;
use std::alloc::{AllocError, Global};

/// The most products of a sample.
const MAX_PRODUCTS: u32 = 1_000;

/// How many months there are.
pub(crate) const MONTHS: u32 = 12;

/// The most units of a record.
const MAX_UNITS: u32 = 100;

/// The highest price of a record.
const MAX_PRICE: u32 = 50;

/// How many products a sample of a size has.
pub(crate) fn products_of(size: u32) -> u32
    ensures { result ≡ products_of size }
{
    size.min(MAX_PRODUCTS)
}

/// Appends a line of a file of records.
fn write_record(
    alloc: Global,
    out: &mut Vec<u8>,
    product: u32,
    month: u32,
    measure: &str,
    amount: u32,
) -> Result<(), AllocError>
    ensures { OnOk result (out.new.items
        ≡ out.old.items ++ record_line product month measure.now amount) }
{
    let line = format!(in alloc; "P{product},M{month},{measure},{amount}\n")?;
    out.extend_from_slice(line.as_bytes())
}

/// The files of units and of prices.
pub(crate) fn record_files(alloc: Global, size: u32) -> Result<(Vec<u8>, Vec<u8>), AllocError>
    requires { 1 ≤ size }
    ensures { IfOk result (λ files. (files.0.items ≡ repeated (units_line size) size)
        × (files.1.items ≡ repeated (price_line size) size)) }
{
    let mut generator = Generator { last: size };
    let mut units_file = Vec::new(alloc);
    let mut price_file = Vec::new(alloc);
    let products = products_of(size);
    for _index in 0..size {
        let product = generator.up_to(products);
        let month = generator.up_to(MONTHS);
        let units = generator.up_to(MAX_UNITS);
        let price = generator.up_to(MAX_PRICE);
        write_record(alloc, &mut units_file, product, month, "Units", units)?;
        write_record(alloc, &mut price_file, product, month, "Price", price)?;
    }
    Ok((units_file, price_file))
}
