ghost use Rattle.std.specs.Prelude.{◌≡◌, ◌≤◌, [], IfOk, map};
ghost use Rattle.cube_sample.specs.Sample.{files_of};

use crate::model::model_file;
use crate::records::record_files;
use cube_outside::MemoryFiles;
use std::alloc::{AllocError, Global};

const RULES: &[u8] =
    b"SKIPCHECK;\n['Sales'] = N: ['Units'] * ['Price'];\nFEEDERS;\n['Units'] => ['Sales'];\n";

const SCRIPT: &[u8] = b"Data: CellPutN(V4, 'Shop', V1, V2, V3);\n";

const FIRST_USER: &[u8] =
    b"LOAD 'import' FROM 'one.csv';\nGET 'Shop' ('Total', 'Year', 'Units');\n";

const SECOND_USER: &[u8] =
    b"LOAD 'import' FROM 'two.csv';\nGET 'Shop' ('Total', 'Year', 'Sales');\n";

fn named(alloc: Global, name: &str, bytes: Vec<u8>) -> Result<(Vec<u8>, Vec<u8>), AllocError>
    ensures { IfOk result (λ file. (file.0.items ≡ name.now) × (file.1.items ≡ bytes.items)) }
{
    Ok((Vec::from_slice(alloc, name.as_bytes())?, bytes))
}

/// The files of a sample of so many records. No read of them fails.
pub fn sample_files(alloc: Global, size: u32) -> Result<MemoryFiles, AllocError>
    requires { 1 ≤ size }
    ensures pairs { IfOk result (λ files.
        map (λ pair. (pair.0.items, pair.1.items)) files.pairs.items ≡ files_of size) }
    ensures free { IfOk result (λ files. files.failing.items ≡ []) }
    ensures calls { IfOk result (λ files. files.calls ≡ 0) }
    ensures faults { IfOk result (λ files. files.count ≡ 0) }
    ensures missed { IfOk result (λ files. files.missed.items ≡ []) }
    ensures asked { IfOk result (λ files. files.asked.items ≡ []) }
{
    let (units_file, price_file) = record_files(alloc, size)?;
    let mut files = MemoryFiles::new(alloc);
    files.pairs = vec![in alloc;
        named(alloc, "model.txt", model_file(alloc, size)?)?,
        named(alloc, "shop.rux", Vec::from_slice(alloc, RULES)?)?,
        named(alloc, "import.ti", Vec::from_slice(alloc, SCRIPT)?)?,
        named(alloc, "one.csv", units_file)?,
        named(alloc, "two.csv", price_file)?,
        named(alloc, "one.txt", Vec::from_slice(alloc, FIRST_USER)?)?,
        named(alloc, "two.txt", Vec::from_slice(alloc, SECOND_USER)?)?,
    ]?;
    Ok(files)
}
