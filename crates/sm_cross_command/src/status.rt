// The status of a session's end, once its requests are written.
ghost use Rattle.std.specs.Prelude.{◌≡◌};
ghost use Rattle.sm_cross_command.specs.Cross.{end_status as the_end_status};
ghost use Rattle.sm_cross_command.specs.steps.CrossSteps.{status_after as the_status_after};

use sm_asked_ends::sm_asked::Status;
use sm_io::FileRefusal;
use sm_session::SessionEnd;

// The status of a session's end.
fn end_status(end: SessionEnd) -> Status
    ensures { result ≡ the_end_status end }
{
    match end {
        SessionEnd::Closed => Status::Done,
        SessionEnd::Quota => Status::Limit,
        SessionEnd::FrontEnded => Status::Refused,
        SessionEnd::BackEnded => Status::Refused,
        SessionEnd::FrontFraming(_) => Status::Refused,
        SessionEnd::BackFraming(_) => Status::Refused,
        SessionEnd::FrontRead => Status::ReadFault,
        SessionEnd::FrontWrite => Status::WriteFault,
        SessionEnd::BackRead => Status::ReadFault,
        SessionEnd::BackWrite => Status::WriteFault,
        SessionEnd::NoMemory => Status::NoMemory,
    }
}

/// The status of the end, where the requests were written; else that of the write, whatever the end.
pub(crate) fn status_after(end: SessionEnd, written: Result<(), FileRefusal>) -> Status
    ensures { result ≡ the_status_after end written }
{
    match written {
        Ok(()) => end_status(end),
        Err(FileRefusal::Failed) => Status::WriteFault,
        Err(FileRefusal::TooLong) => Status::WriteFault,
        Err(FileRefusal::NoMemory) => Status::NoMemory,
    }
}
