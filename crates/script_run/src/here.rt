ghost use Rattle.std.specs.Prelude.{◌≡◌};
ghost use Rattle.std.specs.Option.{option_map};
ghost use Rattle.script_run.specs.Meaning.{columns_in, place_of};

use crate::execution_place::ExecutionPlace;
use script_tree::Section;
use std::marker::Model;
use user_text::Record;

/// Where a statement is run.
#[derive(Drop)]
pub(crate) struct Here<'a> {
    section: Section,
    row: u32,
    columns: &'a Record<'a>,
    decimal: u8,
}

impl<'a> Model for Here<'a> {
    ghost use Rattle.script_run.specs.Setting.{Setting};

    ghost Value = { Setting };

    ghost view = { λ here. record {
      section = here.section;
      row = here.row;
      columns = here.columns.now;
      decimal = here.decimal;
    } };
}

impl<'a> Here<'a> {
    ghost use Rattle.script_run.specs.Load.{setting};

    pub(crate) fn new(decimal: u8, section: Section, row: u32, columns: &'a Record<'a>) -> Here<'a>
        ensures { result ≡ setting decimal section row columns.now }
    {
        Here {
            section,
            row,
            columns,
            decimal,
        }
    }

    /// The byte between units and decimals of numbers in columns.
    pub(crate) fn decimal(&self) -> u8
        ensures { result ≡ self.now.decimal }
    {
        self.decimal
    }

    pub(crate) fn place_of(&self, statement: u32) -> ExecutionPlace
        ensures { result ≡ place_of self.now statement }
    {
        ExecutionPlace {
            section: self.section,
            row: self.row,
            statement,
        }
    }

    /// The columns of the record, which there are in Data alone.
    pub(crate) fn columns(&self) -> Option<&'a Record<'a>>
        ensures { option_map (λ columns. columns.now) result ≡ columns_in self.now.section self.now.columns }
    {
        match self.section {
            Section::Body => Some(self.columns),
            Section::Prolog | Section::Epilog => None,
        }
    }
}
