ghost use Rattle.std.specs.Prelude.{◌≡◌, ◌<◌, ◌≤◌, ◌+◌, ◌-◌, [], IfSome, IfNone, length, slice_get, slice_range};
ghost use Rattle.std.specs.Option.{option_map};

use joined_lists::Joined;
use std::marker::Model;

/// A record of a file. Contracts see the list of its columns.
#[derive(Drop)]
pub struct Record<'a> {
    /// The columns of all records of the file, of which this one has those from `start` to `end`.
    columns: Option<&'a Joined<u8>>,
    start: usize,
    end: usize,
}

impl<'a> Model for Record<'a> {
    ghost use Rattle.std.specs.Prelude.{ℕ, List, ◌≤◌, length, slice_range};
    ghost use Rattle.user_text.specs.Inside.Columns.{pointed};

    ghost Value = { List (List ℕ) };

    ghost view = { λ part. slice_range (pointed part.columns) part.start part.end };

    ghost invariant = { λ part. (part.start ≤ part.end) × (part.end ≤ length (pointed part.columns)) };
}

impl<'a> Record<'a> {
    /// A record with no columns.
    pub fn empty() -> Record<'a>
        ensures { result ≡ [] }
    {
        Record {
            columns: None,
            start: 0,
            end: 0,
        }
    }

    /// The record that has the columns from `start` to `end`.
    pub(crate) fn new(columns: &'a Joined<u8>, start: usize, end: usize) -> Record<'a>
        requires start { start ≤ end }
        requires end { end ≤ length columns.now }
        ensures { result ≡ slice_range columns.now start end }
    {
        Record {
            columns: Some(columns),
            start,
            end,
        }
    }

    /// The column of this place, from 0.
    #[tactic(auto, using(joined_lists::proofs::Ends::past_part))]
    pub fn column(&self, place: usize) -> Option<&'a [u8]>
        ensures { option_map (λ column. column.now) result ≡ slice_get self.now place }
    {
        let columns = self.columns?;
        let at = behind(self.start, self.end, place)?;
        columns.get(at)
    }
}

/// The place that lies `place` places behind `start`, if it lies before `end`.
fn behind(start: usize, end: usize, place: usize) -> Option<usize>
    requires { start ≤ end }
    ensures found { IfSome result (λ at. (at ≡ start + place) × (place < end - start)) }
    ensures none { IfNone result (end - start ≤ place) }
{
    if place < end - start {
        Some(start + place)
    } else {
        None
    }
}
