// The statuses of the commands.
ghost use Rattle.std.specs.Prelude.{◌≡◌};
ghost use Rattle.eh_commands.specs.Answer.{status_of_refusal, status_of_words};
ghost use Rattle.eh_commands.specs.Status.{number_of};

use command_line::WordsError;
use cxx_front::SourceError;
use rv64_machine::FaultKind;

/// How a command ended.
#[derive(Clone, Copy, Debug, PartialEq, Eq)]
pub enum Status {
    Done,
    /// The words are no command.
    Usage,
    /// The number of the rule that the source breaks, and the byte at which it does.
    SourceRefused(u8, u32),
    /// The number of what is wrong with the image, the byte at which it is, and, where the header's table is not the list
    /// of the frames, the table's location and the frame's.
    ImageRefused {
        number: u8,
        place: u64,
        location: u64,
        other: u64,
    },
    /// The number of what is wrong with the schedule, and the byte at which it is.
    ScheduleRefused(u8, u32),
    ReadFault,
    TooLong,
    WriteFault,
    NoMemory,
    Aborted,
    Budget,
    Stack,
    /// Why the machine stopped, and its pc.
    MachineFault(FaultKind, u64),
    /// The source's meaning is undefined.
    Undefined,
    /// Both forms of an image's frames differ at a location.
    Differs,
}

impl Status {
    /// The exit status of the program.
    pub fn number(&self) -> u8
        ensures { result ≡ number_of self.now }
    {
        match *self {
            Status::Done => 0,
            Status::Usage => 1,
            Status::SourceRefused(_, _) => 2,
            Status::ImageRefused { .. } => 3,
            Status::ReadFault => 4,
            Status::WriteFault => 5,
            Status::NoMemory => 6,
            Status::ScheduleRefused(_, _) => 7,
            Status::TooLong => 8,
            Status::Aborted => 10,
            Status::Budget => 11,
            Status::Stack => 12,
            Status::MachineFault(_, _) => 13,
            Status::Undefined => 14,
            Status::Differs => 15,
        }
    }
}

impl From<WordsError> for Status {
    ghost from_gives = { λ e s. s ≡ status_of_words e };

    fn from(error: WordsError) -> Status {
        match error {
            WordsError::Usage => Status::Usage,
            WordsError::NoMemory => Status::NoMemory,
        }
    }
}

impl From<SourceError> for Status {
    ghost from_gives = { λ e s. s ≡ status_of_refusal e };

    fn from(error: SourceError) -> Status {
        match error {
            SourceError::Refused(number, place) => Status::SourceRefused(number, place),
            SourceError::NoMemory => Status::NoMemory,
        }
    }
}
