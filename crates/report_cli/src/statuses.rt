//! The exit statuses of the program.
ghost use Rattle.std.specs.Prelude.{◌≡◌};
ghost use Rattle.report_cli.specs.Statuses as statuses;

use library_http::How;

/// How a run of the program ended.
#[derive(Clone, Copy, Debug, PartialEq, Eq)]
pub enum Status {
    /// The command was carried out.
    Ended,
    /// The words are no command.
    Usage,
    /// The input ended with what can't be framed.
    Unframeable,
    /// A read of the input failed.
    SourceFault,
    /// A write of the output failed.
    SinkFault,
    /// Want of memory.
    Memory,
    /// The tables could not be loaded.
    KeeperFault,
    /// A row of the tables breaks a rule.
    BadRow,
    /// As many requests were answered as a session may, and a byte more was there.
    Turns,
    /// The door failed to let a connection in.
    DoorFault,
}

impl Status {
    /// The number that the program exits with.
    pub fn code(self) -> u8
        ensures { result ≡ statuses.code self }
    {
        match self {
            Status::Ended => 0,
            Status::Usage => 1,
            Status::Unframeable => 2,
            Status::SourceFault => 3,
            Status::SinkFault => 4,
            Status::Memory => 5,
            Status::KeeperFault => 6,
            Status::BadRow => 7,
            Status::Turns => 8,
            Status::DoorFault => 10,
        }
    }

    /// The status of a session that ended so.
    pub fn of_session(how: How) -> Status
        ensures { result ≡ statuses.status_of how }
    {
        match how {
            How::Ended => Status::Ended,
            How::Unframeable => Status::Unframeable,
            How::Turns => Status::Turns,
            How::SourceFault => Status::SourceFault,
            How::SinkFault => Status::SinkFault,
            How::Memory => Status::Memory,
        }
    }
}
