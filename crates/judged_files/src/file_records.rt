ghost use Rattle.std.specs.Arc.{arc_value};
ghost use Rattle.std.specs.Prelude.{◌≡◌, ◌∷◌, ◌++◌, [], IfOk, IsSome, OnErr, OnOk, Some, option_map};
ghost use Rattle.file_passes.specs.Pass.{source_of};
ghost use Rattle.judged_files.specs.Inside.Kept.{key_of};
ghost use Rattle.user_text.specs.Rows.{rows_of};

use file_passes::Source;
use std::alloc::{AllocError, Global};
use std::marker::Model;
use std::sync::Arc;
use user_text::{Records, rows};
use word_table::WordTable;

/// The records of a file, which all loads of the file share that have the same byte between columns.
pub(crate) type SharedRecords = Arc<Records, Global>;

/// Files of records, of which each is read as records once for each byte between columns. Contracts see the files.
#[derive(Drop)]
pub(crate) struct FileRecords<'a, 'b> {
    sources: &'a [Source<'b>],
    /// The names of the files.
    names: WordTable,
    /// What records are kept of: the byte between the columns, and then the name of the file.
    keys: WordTable,
    /// The records of each key.
    kept: Vec<SharedRecords>,
}

impl<'a, 'b> Model for FileRecords<'a, 'b> {
    ghost use Rattle.std.specs.Prelude.{◌≡◌, ℕ, List};
    ghost use Rattle.judged_files.specs.Inside.Kept.{AreRecords, names_of};

    ghost Value = { List (List ℕ × List ℕ) };

    ghost view = { λ files. files.sources.now };

    ghost invariant = { λ files. (files.names ≡ names_of files.sources.now)
        × AreRecords files.sources.now files.keys files.kept.items };
}

impl<'a, 'b> FileRecords<'a, 'b> {
    /// These files, of which none is read as records yet.
    pub(crate) fn new(
        alloc: Global,
        sources: &'a [Source<'b>],
    ) -> Result<FileRecords<'a, 'b>, AllocError>
        ensures { IfOk result (λ files. files ≡ sources.now) }
    {
        let mut names = WordTable::new(alloc);
        for source in sources {
            names.push(alloc, source.name().as_bytes())?;
        }
        Ok(FileRecords {
            sources,
            names,
            keys: WordTable::new(alloc),
            kept: Vec::new(alloc),
        })
    }

    // The bytes of the file of this name, which is one of these.
    fn bytes(&self, name: &[u8]) -> &[u8]
        requires { IsSome (source_of self.now name.now) }
        ensures { option_map (λ source. source.1) (source_of self.now name.now) ≡ Some result.now }
    {
        let place = self.names.place_of(name).unwrap();
        self.sources[place].bytes()
    }

    /// The records of the file of this name, which is one of these, with this byte between columns.
    pub(crate) fn records(
        &mut self,
        alloc: Global,
        name: &[u8],
        separator: u8,
    ) -> Result<SharedRecords, AllocError>
        requires { IsSome (source_of self.old name.now) }
        ensures kept { self.new ≡ self.old }
        ensures records { IfOk result (λ records.
            option_map (λ source. rows_of separator 0 source.1) (source_of self.old name.now)
            ≡ Some (arc_value records)) }
    {
        let key = key_of(alloc, separator, name)?;
        if let Some(place) = self.keys.place_of(&key) {
            let records = Arc::try_clone(&self.kept[place])?;
            return Ok(records);
        }
        let records = Arc::new(alloc, rows(alloc, self.bytes(name), separator, 0)?)?;
        let given = Arc::try_clone(&records)?;
        keep(alloc, &mut self.keys, &mut self.kept, &key, records)?;
        Ok(given)
    }
}

// What the records of a file are kept under.
fn key_of(alloc: Global, separator: u8, name: &[u8]) -> Result<Vec<u8>, AllocError>
    ensures { IfOk result (λ key. key.items ≡ key_of separator name.now) }
{
    let mut key = Vec::new(alloc);
    key.push(separator)?;
    key.extend_from_slice(name)?;
    Ok(key)
}

// Keeps the records of one more key.
fn keep(
    alloc: Global,
    keys: &mut WordTable,
    kept: &mut Vec<SharedRecords>,
    key: &[u8],
    records: SharedRecords,
) -> Result<(), AllocError>
    ensures keys { OnOk result (keys.new ≡ keys.old ++ key.now ∷ []) }
    ensures kept { OnOk result (kept.new.items ≡ kept.old.items ++ records ∷ []) }
    ensures err { OnErr result ((keys.new ≡ keys.old) × (kept.new.items ≡ kept.old.items)) }
{
    kept.reserve(1)?;
    keys.push(alloc, key)?;
    kept.push_reserved(records);
    Ok(())
}
