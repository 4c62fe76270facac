//! How a run ended.

ghost use Rattle.std.specs.Prelude.{◌≡◌};
ghost use Rattle.shell_top.specs.Status.{code_of};

/// How a run ended.
#[derive(Clone, Copy, Debug, PartialEq, Eq)]
pub enum Status {
    /// The input was read to its end, and the session is not stopped.
    Done,
    /// The input was read to its end, and the session is stopped.
    Stopped,
    /// The words are refused; nothing was read, written or opened.
    Words,
    /// There was no memory for a line or for the sink.
    Memory,
    /// The source failed.
    ReadFault,
    /// The sink failed, or took nothing.
    WriteFault,
    /// 1,073,741,824 bytes were taken from the source.
    TooMuch,
}

impl Status {
    /// The exit status of a program that ends so.
    pub fn code(&self) -> u8
        ensures { result ≡ code_of self.now }
    {
        match self {
            Status::Done => 0,
            Status::Stopped => 1,
            Status::Words => 2,
            Status::Memory => 3,
            Status::ReadFault => 4,
            Status::WriteFault => 5,
            Status::TooMuch => 6,
        }
    }
}
