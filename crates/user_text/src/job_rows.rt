ghost use Rattle.std.specs.Prelude.{◌≡◌, ◌++◌, [], drop, IfNone};
ghost use Rattle.std.specs.Option.{option_to_list};

use crate::record::Record;
use crate::records::Records;
use std::marker::Model;

/// The records over which a script is still to run. Contracts see the list of them.
#[derive(Drop)]
pub struct Rows<'a> {
    records: Option<&'a Records>,
    /// How many of the records are skipped.
    passed: usize,
}

impl<'a> Model for Rows<'a> {
    ghost use Rattle.std.specs.Prelude.{ℕ, List, drop};
    ghost use Rattle.user_text.specs.Inside.Columns.{pointed};

    ghost Value = { List (List (List ℕ)) };

    ghost view = { λ rows. drop rows.passed (pointed rows.records) };
}

impl<'a> Rows<'a> {
    /// No records.
    pub fn empty() -> Rows<'a>
        ensures { result ≡ [] }
    {
        Rows {
            records: None,
            passed: 0,
        }
    }

    /// The records behind the first `passed` ones.
    pub(crate) fn new(records: &'a Records, passed: usize) -> Rows<'a>
        ensures { result ≡ drop passed records.now }
    {
        Rows {
            records: Some(records),
            passed,
        }
    }

    /// Takes the first record, if there is one.
    #[tactic(auto, using(crate::proofs::Parts::one_gone, crate::proofs::Parts::all_gone, crate::proofs::Parts::past))]
    pub fn next(&mut self) -> Option<Record<'a>>
        ensures first { self.old ≡ option_to_list result ++ self.new }
        ensures none { IfNone result (self.old ≡ []) }
    {
        match self.records {
            Some(records) if self.passed < records.len() => {
                let record = records.get(self.passed);
                self.passed += 1;
                record
            }
            _ => None,
        }
    }
}
