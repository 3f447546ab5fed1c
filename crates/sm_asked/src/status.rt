// How a command ended, and the number by which the process then ends.
ghost use Rattle.std.specs.Prelude.{◌≡◌};
ghost use Rattle.sm_asked.specs.Answer.{code_of};

/// How a command ended.
#[derive(Debug, Clone, Copy, PartialEq, Eq, Drop)]
pub enum Status {
    /// Its work is done.
    Done,
    /// The model, the shape or the body is refused; a line or more were printed.
    Refused,
    /// The words have none of the forms; nothing was printed.
    Usage,
    /// A file or the input could not be read; nothing was printed.
    ReadFault,
    /// The output could not be written.
    WriteFault,
    /// The allocator refused the memory that is needed.
    NoMemory,
    /// The store refused a pattern that the shape reaches; a line was printed.
    Pattern,
    /// A limit is passed; a line was printed.
    Limit,
}

impl Status {
    /// The number of the status, by which the process ends.
    pub fn code(self) -> u8
        ensures { result ≡ code_of self }
    {
        match self {
            Status::Done => 0,
            Status::Refused => 1,
            Status::Usage => 2,
            Status::ReadFault => 3,
            Status::WriteFault => 4,
            Status::NoMemory => 5,
            Status::Pattern => 6,
            Status::Limit => 7,
        }
    }
}
