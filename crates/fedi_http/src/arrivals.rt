//! Reading whole requests.

ghost use Rattle.std.specs.Prelude.{◌≡◌, ◌<◌, ◌++◌, ℕ, List, Some, IfErr, IfSome};
ghost use Rattle.std.specs.Io.KnownBytes.{prepend_known, IsAtEnd};
ghost use Rattle.fedi_http.specs.Arrivals.{IsArrival, LacksRequest, OnInputEnd, OnRequest};
ghost use Rattle.fedi_http.specs.Arrivals.{TellsOfStream, arrived_by, arrived_of, is_read_fault};
ghost use Rattle.fedi_http.specs.Moves.{OnEnd, Reads, has_fault};

use crate::buffer::{BUFFER_LIMIT, Buffer};
use crate::chunks::{LINE_LIMIT, TRAILER_LIMIT, read_body};
use crate::heads::{HEAD_LIMIT, read_head};
use crate::read_error::ReadError;
use crate::requests::{MOST_FIELDS, read_request_head};
use fedi_model::{BODY_LIMIT, Refusal, Request};
use fedi_outside::Source;
use std::alloc::Global;

/// What is at the front of a stream, or why reading it stopped.
#[derive(Drop)]
pub enum Arrived {
    /// A request. Its body is in the buffer.
    Request(Request),
    /// The input ended before a request began.
    End,
    /// The input ended inside a request.
    CutShort,
    /// The request is refused, for its head or its body. What follows is not examined.
    Refused(Refusal),
    /// A read failed.
    ReadFault,
    /// Memory ran out for the request or for its bytes. The head is not refused.
    Memory,
}

impl From<ReadError> for Arrived {
    ghost use Rattle.std.specs.Prelude.{◌≡◌};
    ghost use Rattle.fedi_http.specs.Arrivals.{arrived_by};

    ghost from_gives = { λ error arrived. arrived ≡ arrived_by error };

    fn from(error: ReadError) -> Self {
        match error {
            ReadError::End => Arrived::End,
            ReadError::CutShort => Arrived::CutShort,
            ReadError::Refused(refusal) => Arrived::Refused(refusal),
            ReadError::ReadFault => Arrived::ReadFault,
            ReadError::Memory => Arrived::Memory,
        }
    }
}

/// Reads the next request (RFC 9112, sections 2 to 7) from the source into the buffer, until the
/// bytes that were read contain a head and its body, or something that is refused, or the input
/// ends. The pending bytes come first. The source is read only if they do not determine the answer,
/// so a client that waits for one gets it.
///
/// A request is refused for the first of these that holds:
///
/// | Refusal | If |
/// |---|---|
/// | `HeadTooLong` | no head ends in the first `HEAD_LIMIT` bytes |
/// | `HeadTooLong` | over `MOST_FIELDS` lines are between the first line of the head and its end |
/// | `BadHead`, `NoCoding`, `NoLength`, `TooLong` | the head is refused by `read_request_head` |
/// | `BadHead` | a size line has no end within `LINE_LIMIT` bytes or is wrong, no CR LF follows the data of a chunk, or the trailer does not end within `TRAILER_LIMIT` bytes |
/// | `TooLong` | the sizes of the chunks that were read add up to over `BODY_LIMIT`; their data is not waited for |
///
/// After `Request` the buffer lends the body until the next call, whatever its coding, and the
/// bytes after it stay pending. Every byte that was pending or was taken from the source is
/// accounted for. After `Refused`, `ReadFault` and `Memory` the buffer must not be read from again:
/// it may have lost part of a request.
pub fn read_request<S: Source>(alloc: Global, source: &mut S, buffer: &mut Buffer) -> Arrived
    // The bytes that were pending, followed by those that were taken, begin with this arrival.
    // Nothing is taken if the pending bytes alone determine it.
    ensures reads { Reads S.left S.read_faults S.beside_source source.old source.new
        (is_read_fault result) (LacksRequest HEAD_LIMIT MOST_FIELDS buffer.old.pending)
        (λ more. IsArrival HEAD_LIMIT MOST_FIELDS (buffer.old.pending ++ more) result
        buffer.new.body buffer.new.pending) }
    // If it is known what the source still holds, this is at the front of the whole stream, and the
    // rest is what is then pending, followed by what the source then holds.
    ensures told { IfSome (prepend_known buffer.old.pending (S.left source.old))
        (λ stream. TellsOfStream result → (rest : List ℕ)
        × IsArrival HEAD_LIMIT MOST_FIELDS stream result buffer.new.body rest
        × OnRequest result (prepend_known buffer.new.pending (S.left source.new) ≡ Some rest)) }
    ensures ended { OnInputEnd result (IsAtEnd (S.left source.new)) }
{
    match next_request(alloc, source, buffer) {
        Ok(request) => Arrived::Request(request),
        Err(error) => Arrived::from(error),
    }
}

// Reads the next request. The error says why there is no request.
fn next_request<S: Source>(
    alloc: Global,
    source: &mut S,
    buffer: &mut Buffer,
) -> Result<Request, ReadError>
    ensures reads { Reads S.left S.read_faults S.beside_source source.old source.new
        (has_fault result) (LacksRequest HEAD_LIMIT MOST_FIELDS buffer.old.pending)
        (λ more. IsArrival HEAD_LIMIT MOST_FIELDS (buffer.old.pending ++ more) (arrived_of result)
        buffer.new.body buffer.new.pending) }
    ensures ended { IfErr result (λ e. OnEnd e (IsAtEnd (S.left source.new))) }
{
    buffer.drop_body();
    let head = read_head(source, buffer)?;
    let request = read_request_head(alloc, &buffer.pending()[head.start..head.end])?;
    buffer.skip(head.end);
    read_body(source, buffer, request.coding).and(Ok(request))
}

/// At most one of the answers that describe a stream is true of its front. If it is a request, its
/// body and the rest are unique too.
pub fn arrivals_are_determined()
    ensures { (limit most : ℕ) (stream : List ℕ) (a b : Arrived) (body text rest more : List ℕ)
        → 0 < limit → IsArrival limit most stream a body rest
        → IsArrival limit most stream b text more → TellsOfStream a → TellsOfStream b
        → (a ≡ b) × OnRequest a ((body ≡ text) × (rest ≡ more)) }
{}

/// The limits, as numbers.
pub fn limits_are_fixed()
    ensures head { HEAD_LIMIT ≡ 16384 }
    ensures fields { MOST_FIELDS ≡ 64 }
    ensures body { BODY_LIMIT ≡ 262144 }
    ensures line { LINE_LIMIT ≡ 256 }
    ensures trailer { TRAILER_LIMIT ≡ 16384 }
    ensures buffer { BUFFER_LIMIT ≡ 278528 }
{}
