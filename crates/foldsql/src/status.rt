ghost use Rattle.std.specs.Prelude.{◌≡◌};
ghost use Rattle.foldsql.specs.Status.{code_of, last_line};

/// How a call of the program ended.
#[derive(Clone, Copy, Debug, PartialEq, Eq)]
pub enum Status {
    /// The input was read to its end and each line was answered.
    Done,
    /// The words after the program's name ask for nothing that there is.
    Words,
    /// The disk failed within a line.
    DiskFault,
    /// The output failed.
    EmitFault,
    /// The input failed.
    SourceFault,
    /// As many bytes were taken as an input may have, and it had not ended.
    InputTooLong,
    /// There was not memory enough to begin.
    NoMemory,
}

impl Status {
    /// The number that the process ends with.
    pub fn code(self) -> u8
        ensures { result ≡ code_of self }
    {
        match self {
            Status::Done => 0,
            Status::Words => 2,
            Status::DiskFault => 3,
            Status::EmitFault => 5,
            Status::SourceFault => 6,
            Status::InputTooLong => 7,
            Status::NoMemory => 8,
        }
    }

    /// The last line of the output, with its line feed; nothing where the status has none.
    #[tactic(auto, unfolding(crate::specs::Status::last_line))]
    pub fn last_line(self) -> &'static str
        ensures { result.now ≡ last_line self }
    {
        match self {
            Status::Done | Status::EmitFault => "",
            Status::Words => "stopped words\n",
            Status::DiskFault => "stopped disk fault\n",
            Status::SourceFault => "stopped source fault\n",
            Status::InputTooLong => "stopped input too long\n",
            Status::NoMemory => "stopped no memory\n",
        }
    }
}
