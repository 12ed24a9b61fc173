ghost use Rattle.std.specs.Prelude.{◌≡◌, ◌∷◌, ◌++◌, [], drop, length, slice_get, IfOk, OnOk};
ghost use Rattle.csv.specs.Reading.{strip_bom};
ghost use Rattle.csv.specs.Records.{fields_of};
ghost use Rattle.user_text.specs.Rows.{rows_of};

use crate::job_rows::Rows;
use crate::record::Record;
use csv::{ByteRecord, ReaderBuilder};
use joined_lists::{Joined, bounds};
use std::alloc::{AllocError, Global};
use std::marker::Model;

/// The records of a file, each the list of its columns. They stand one after another in one buffer, so that none has
/// memory of its own.
#[derive(Drop)]
pub struct Records {
    /// The columns of all records.
    columns: Joined<u8>,
    /// How many columns there are up to the end of each record.
    ends: Vec<usize>,
}

impl Model for Records {
    ghost use Rattle.std.specs.Prelude.{ℕ, List, length};
    ghost use Rattle.joined_lists.specs.Parts.{EndAt, parts};

    ghost Value = { List (List (List ℕ)) };

    ghost view = { λ records. parts records.ends.items records.columns };

    ghost invariant = { λ records. EndAt 0 records.ends.items (length records.columns) };
}

impl Records {
    /// How many records there are.
    pub fn len(&self) -> usize
        ensures { result ≡ length self.now }
    {
        self.ends.len()
    }

    /// The record of this place, from 0.
    pub fn get(&self, place: usize) -> Option<Record<'_>>
        ensures { result ≡ slice_get self.now place }
    {
        let (start, end) = bounds(self.ends.as_slice(), place)?;
        Some(Record::new(&self.columns, start, end))
    }

    /// The records behind the first `skip` ones.
    pub fn behind(&self, skip: u32) -> Rows<'_>
        ensures { result ≡ drop skip self.now }
    {
        Rows::new(self, skip as usize)
    }
}

#[tactic(auto, unfolding(csv::specs::Reading::strip_bom))]
/// The bytes behind a byte order mark, U+FEFF in UTF-8.
fn without_mark(bytes: &[u8]) -> &[u8]
    ensures { result.now ≡ strip_bom bytes.now }
{
    match bytes {
        [0xEF, 0xBB, 0xBF, rest @ ..] => rest,
        _ => bytes,
    }
}

#[tactic(auto, using(crate::proofs::Columns::add_next, crate::proofs::Columns::take_whole))]
/// Adds a record as the last.
fn add(
    columns: &mut Joined<u8>,
    ends: &mut Vec<usize>,
    taken: &ByteRecord,
) -> Result<(), AllocError>
    ensures columns { OnOk result (columns.new ≡ columns.old ++ fields_of taken.now) }
    ensures ends { OnOk result (ends.new.items ≡ ends.old.items ++ length columns.new ∷ []) }
{
    for column in taken.iter() {
        columns.push(column)?;
    }
    ends.push(columns.len())?;
    Ok(())
}

/// The records of a file behind the first `skip` ones, where this byte stands between columns. Every list of bytes is a
/// list of records.
pub fn rows(alloc: Global, bytes: &[u8], separator: u8, skip: u32) -> Result<Records, AllocError>
    ensures { IfOk result (λ records. records ≡ rows_of separator skip bytes.now) }
{
    let text = without_mark(bytes);
    let mut reader = ReaderBuilder::new()
        .delimiter(separator)
        .has_headers(false)
        .flexible(true)
        .from_reader(alloc, text);
    let mut taken = ByteRecord::new(alloc);
    let mut columns = Joined::new(alloc);
    let mut ends = Vec::new(alloc);
    let mut passed = 0;
    // The reader passes over a mark of its own, and each record takes at least one byte.
    for _turn in 0..without_mark(text).len() + 1 {
        let Ok(found) = reader.read_byte_record(&mut taken) else {
            return Err(AllocError);
        };
        if !found {
            break;
        }
        if passed < skip {
            passed += 1;
        } else {
            add(&mut columns, &mut ends, &taken)?;
        }
    }
    Ok(Records { columns, ends })
}
