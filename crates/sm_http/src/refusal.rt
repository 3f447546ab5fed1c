// Why no message was read.
use std::alloc::AllocError;
use thiserror::Error;

/// Why bytes are no message, or weren't read.
#[derive(Clone, Copy, Debug, Error, PartialEq, Eq)]
pub enum HttpRefusal {
    /// The source failed. Its count of faults rose, or stands at 2^64 - 1.
    #[error("the read failed")]
    ReadFault,
    /// The bytes end inside a message.
    #[error("the bytes end inside a message")]
    Ended,
    /// No head begins with these bytes, or it is of another version, or its status is below 100.
    #[error("no head of HTTP/1.1")]
    Head,
    /// The first 16,384 bytes hold no whole head, or the head has more than 64 fields.
    #[error("the head is too large")]
    HeadTooLarge,
    /// The body's coding isn't `chunked` alone, or a length stands beside it, or the response is an interim one.
    #[error("a coding that isn't read")]
    Coding,
    /// A length that is no number, or lengths that differ, or a response without any.
    #[error("no length of a body")]
    Length,
    /// The body has more than 8,388,608 bytes.
    #[error("the body is too long")]
    TooLong,
    /// A byte with which no chunked body goes on.
    #[error("no chunked body")]
    Chunk,
    /// Memory ran out.
    #[error("out of memory")]
    NoMemory,
}

impl From<AllocError> for HttpRefusal {
    ghost use Rattle.std.specs.Prelude.{◌≡◌};
    ghost use Rattle.sm_http.specs.declared.refusal.HttpRefusal.TheVariants.{NoMemory};

    ghost from_gives = { λ _ e. e ≡ NoMemory };

    fn from(_error: AllocError) -> HttpRefusal {
        HttpRefusal::NoMemory
    }
}
