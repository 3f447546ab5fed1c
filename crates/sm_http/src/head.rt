// A head read from bytes that are at hand, by httparse.
ghost use Rattle.std.specs.Prelude.{◌≡◌, length, map, IfOk};
ghost use Rattle.sm_http.specs.declared.message.MessageSide.TheVariants.{Request as of_requests, Response as of_responses};
ghost use Rattle.sm_http.specs.steps.Finding.{header_field, FindsHead};

use crate::message::{Field, FieldList, Head, Start};
use httparse::{Error, Header, Request, Response, Status};
use sm_tree::{Bytes, NoMemory, Text};
use std::alloc::Global;

/// A whole head, with the minor number of its version and its length.
#[derive(Drop)]
pub struct HeadFound {
    pub head: Head,
    pub minor: u8,
    pub len: usize,
}

/// Why no head was found.
pub enum Unfound {
    /// The bytes hold no whole head, and others may follow that make one.
    Part,
    /// No bytes can follow that make a head.
    Never,
    /// There are more field lines than room.
    TooMany,
    /// Memory ran out.
    NoMemory,
}

impl From<NoMemory> for Unfound {
    ghost use Rattle.std.specs.Prelude.{◌≡◌};
    ghost use Rattle.sm_http.specs.declared.head.Unfound.TheVariants.{NoMemory};

    ghost from_gives = { λ _ why. why ≡ NoMemory };

    fn from(_refusal: NoMemory) -> Unfound {
        Unfound::NoMemory
    }
}

// The fields that headers are.
fn fields_of(alloc: Global, headers: &[Header]) -> Result<FieldList, NoMemory>
    ensures { IfOk result (λ fields. fields ≡ map header_field headers.now) }
{
    let mut fields = Vec::with_capacity(alloc, headers.len())?;
    for header in headers {
        let name = Text::copy(alloc, header.name)?;
        let value = Bytes::new(header.value.to_vec(alloc)?);
        fields.push(Field { name, value })?;
    }
    Ok(FieldList::new(fields))
}

/// The request's head at the start of the bytes.
pub fn request_head<'b>(
    alloc: Global,
    bytes: &'b [u8],
    room: &mut [Header<'b>],
) -> Result<HeadFound, Unfound>
    ensures { FindsHead of_requests (length room.old) bytes.now result }
{
    let mut request = Request::new(room);
    match request.parse(bytes) {
        Ok(Status::Complete(len)) => {
            let method = Text::copy(alloc, request.method.unwrap())?;
            let target = Text::copy(alloc, request.path.unwrap())?;
            let minor = request.version.unwrap();
            let fields = fields_of(alloc, &*request.headers)?;
            let start = Start::Request { method, target };
            let head = Head { start, fields };
            Ok(HeadFound { head, minor, len })
        }
        Ok(Status::Partial) => Err(Unfound::Part),
        Err(Error::TooManyHeaders) => Err(Unfound::TooMany),
        Err(_) => Err(Unfound::Never),
    }
}

/// The response's head at the start of the bytes.
pub fn response_head<'b>(
    alloc: Global,
    bytes: &'b [u8],
    room: &mut [Header<'b>],
) -> Result<HeadFound, Unfound>
    ensures { FindsHead of_responses (length room.old) bytes.now result }
{
    let mut response = Response::new(room);
    match response.parse(bytes) {
        Ok(Status::Complete(len)) => {
            let status = response.code.unwrap();
            let minor = response.version.unwrap();
            let fields = fields_of(alloc, &*response.headers)?;
            let start = Start::Response { status };
            let head = Head { start, fields };
            Ok(HeadFound { head, minor, len })
        }
        Ok(Status::Partial) => Err(Unfound::Part),
        Err(Error::TooManyHeaders) => Err(Unfound::TooMany),
        Err(_) => Err(Unfound::Never),
    }
}
