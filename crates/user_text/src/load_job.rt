ghost use Rattle.std.specs.Prelude.{◌≡◌};
ghost use Rattle.user_text.specs.Jobs.{rows_in};

use crate::job_rows::Rows;
use crate::load_params::LoadParams;
use crate::records::Records;
use std::alloc::Global;
use std::sync::Arc;

/// A load that is to run.
#[derive(Drop)]
pub struct LoadJob {
    /// The script's place in the model, from 0.
    pub script: u32,
    /// The records of the load's file. All loads of the file share them. Without a file there are none.
    pub records: Option<Arc<Records, Global>>,
    /// How many records at the file's beginning are skipped.
    pub skip: u32,
    /// The byte between units and decimals of the numbers in the file.
    pub decimal: u8,
    /// How many records may be passed over at most, where the load says so.
    pub rejects: Option<u32>,
    /// The variables that are set before the script's Prolog, each once, in capitals.
    pub params: LoadParams,
}

impl LoadJob {
    /// The records over which the script runs.
    pub fn rows(&self) -> Rows<'_>
        ensures { result ≡ rows_in self.now }
    {
        match &self.records {
            Some(records) => records.behind(self.skip),
            None => Rows::empty(),
        }
    }
}
