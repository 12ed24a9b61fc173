ghost use Rattle.std.specs.Prelude.{◌≡◌};

/// How a run ended.
#[derive(Clone, Copy, Debug, PartialEq, Eq)]
pub enum Status {
    /// All commands were answered, and the users' texts and the history were written.
    Done,
    /// The words aren't in the grammar. The usage text was written.
    Usage,
    /// A text was refused. The line that says which and why was written.
    Refused,
    /// A file couldn't be read. The line with its name was written.
    ReadFault,
    /// The sink failed before all was written.
    WriteFault,
    /// Memory ran out.
    NoMemory,
}

impl Status {
    ghost use Rattle.cube_server.specs.Status.{code_of};

    /// The exit status of the program.
    pub fn code(self) -> u8
        ensures { result ≡ code_of self }
    {
        self as u8
    }
}
