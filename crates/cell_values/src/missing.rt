ghost use Rattle.std.specs.Prelude.{◌≡◌, []};
ghost use Rattle.cell_values.specs.Inside.Answers.{ListedAnswers, AreMissing};

use rule_evaluate::Ask;
use std::alloc::Global;

/// Questions that an evaluation leaves open: the first, and those that it asks whatever the answer to that is.
#[derive(Drop)]
pub(crate) struct Missing {
    pub(crate) first: Ask,
    pub(crate) more: Vec<Ask>,
}

impl Missing {
    /// One question alone.
    pub(crate) fn new(alloc: Global, question: Ask) -> Missing
        ensures first { result.first ≡ question }
        ensures more { result.more.items ≡ [] }
    {
        Missing {
            first: question,
            more: Vec::new(alloc),
        }
    }

    /// These questions and the other ones, where there are no more than `most` after the first. Else the other ones are
    /// left out, as when out of memory, and come again.
    pub(crate) fn with(mut self, mut other: Missing, most: usize) -> Missing
        ensures { (at : ListedAnswers) → AreMissing at self → AreMissing at other → AreMissing at result }
    {
        if self.more.len().saturating_add(other.more.len()) >= most {
            return self;
        }
        if self.more.push(other.first).is_err() {
            return self;
        }
        let _added = self.more.append(&mut other.more);
        self
    }
}
