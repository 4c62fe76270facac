//! The replies.

ghost use Rattle.std.specs.Prelude.{◌≡◌};
ghost use Rattle.shell_top.specs.Reply.{text_of};

/// What a line, or the opening, is answered.
#[derive(Clone, Copy, Debug, PartialEq, Eq)]
pub enum Reply {
    /// The opening found no rows.
    Open,
    /// A row was put where none was.
    New,
    /// A row was put in place of another.
    Replaced,
    /// The opening found a file that is not empty.
    NotADatabase,
    /// The line is no command.
    BadLine,
    /// The text passes the greatest length.
    TooLong,
    /// The device failed, and the session is stopped.
    Fault,
    /// The session is stopped.
    Stopped,
    /// There was no memory, and nothing has changed.
    Memory,
    /// There was no memory once the device was asked, and the session is stopped.
    MemoryStopped,
}

impl Reply {
    /// The reply as it is written, with its line feed.
    pub fn text(self) -> &'static [u8]
        ensures { result.now ≡ text_of self }
    {
        match self {
            Reply::Open => b"open 0\n",
            Reply::New => b"new\n",
            Reply::Replaced => b"replaced\n",
            Reply::NotADatabase => b"refused main not-a-database\n",
            Reply::BadLine => b"error bad-line\n",
            Reply::TooLong => b"error too-long\n",
            Reply::Fault => b"fault\n",
            Reply::Stopped => b"stopped\n",
            Reply::Memory => b"memory\n",
            Reply::MemoryStopped => b"memory stopped\n",
        }
    }
}
