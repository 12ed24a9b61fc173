/// What the words ask for.
#[derive(Drop)]
pub enum Plan<'a> {
    /// The users' commands are run on the model, each from the file of its name.
    Run { model: &'a str, users: &'a [String] },
    /// The model is checked, with its rules and scripts.
    Check { model: &'a str },
    /// The model and these users' files are checked, no user is run, and a refusal is explained.
    Explain { model: &'a str, users: &'a [String] },
    /// The feeders that are found for the model's statements are printed as text for its rule files.
    Feeders { model: &'a str },
    /// The generated sample of so many records is run and summed up.
    Sample { size: u32 },
}

/// Why words ask for nothing.
#[derive(Clone, Copy, Debug, PartialEq, Eq)]
pub enum WordsFault {
    /// They aren't in the grammar of words.
    Usage,
    /// Memory ran out while they were read.
    OutOfMemory,
}
