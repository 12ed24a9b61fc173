use cell_store::{CellSet, Store};
use cube_fixed::Money;
use std::alloc::{AllocError, Global};
use std::fmt::Write;

/// What is asked of stores, a line each. The lines of the text are:
///
/// - `put CELL MILLIONTHS`, a write;
/// - `apply`, which makes the next store of the newest one and of the writes since the last `apply`;
/// - `show N`, which shows the store after N of them: how many cells it has, and the first of them, each with its
/// number
///   in millionths, as the entry at or above has it, and as it is got;
/// - `get CELL`, of the newest store.
pub fn answer(alloc: Global, text: &[u8]) -> Result<Vec<u8>, AllocError> {
    let mut stores = Stores {
        made: Vec::new(alloc),
        writes: Vec::new(alloc),
    };
    stores.made.push(Store::new(alloc))?;
    let mut out = String::new(alloc);
    for line in std::str::from_utf8(text).unwrap_or("").lines() {
        let parts: Vec<&str> = line.split(' ').collect(alloc)?;
        match parts.as_slice() {
            ["put", cell, number] => stores.put(cell, number)?,
            ["apply"] => stores.apply(alloc, &mut out)?,
            ["show", place] => stores.show(place, &mut out)?,
            ["get", cell] => stores.get(cell, &mut out)?,
            _ => writeln!(out, "no line of stores")?,
        }
    }
    Ok(out.into_bytes())
}

// The stores that were made, from the empty one, and the writes of the next.
#[derive(Drop)]
struct Stores {
    made: Vec<Store>,
    writes: Vec<(u64, Money)>,
}

impl Stores {
    fn put(&mut self, cell: &str, number: &str) -> Result<(), AllocError> {
        let number = Money::of(number.parse::<i64>().unwrap_or(0)).unwrap_or(Money::ZERO);
        self.writes.push((cell_of(cell), number))?;
        Ok(())
    }

    fn apply(&mut self, alloc: Global, out: &mut String) -> Result<(), AllocError> {
        let Some(newest) = self.made.last() else {
            return Ok(());
        };
        match newest.apply(alloc, &self.writes) {
            Ok(store) => self.made.push(store)?,
            Err(fault) => writeln!(out, "{fault:?}")?,
        }
        self.writes.clear();
        Ok(())
    }

    fn show(&self, place: &str, out: &mut String) -> Result<(), AllocError> {
        let Some(store) = self.made.get(cell_of(place) as usize) else {
            return writeln!(out, "no such store");
        };
        let len = store.len();
        writeln!(out, "{len} cells")?;
        let mut from = 0;
        for _ in 0..8 {
            let next = store.next_from(from);
            let Some(entry) = store.entry_from(from) else {
                return writeln!(out, "nothing from {from}, next is {next:?}");
            };
            let (cell, number) = (entry.cell, entry.number.millionths());
            let (next, got) = (store.next_from(from), store.get(cell).millionths());
            writeln!(
                out,
                "{cell} holds {number}, got {got}, next from {from} is {next:?}"
            )?;
            let Some(above) = cell.checked_add(1) else {
                return Ok(());
            };
            from = above;
        }
        Ok(())
    }

    fn get(&self, cell: &str, out: &mut String) -> Result<(), AllocError> {
        let Some(newest) = self.made.last() else {
            return Ok(());
        };
        let cell = cell_of(cell);
        let (number, has) = (newest.get(cell).millionths(), newest.has(cell));
        writeln!(out, "{cell} holds {number}, has {has}")
    }
}

fn cell_of(digits: &str) -> u64 {
    digits.parse::<u64>().unwrap_or(0)
}
