//! Reading bodies, by their length or in chunks (RFC 9112, sections 6 and 7.1).
ghost use Rattle.std.specs.Prelude.{◌≡◌, ◌+◌, ◌<◌, ◌≤◌, ◌++◌, [], length, drop, min, IfErr, IfNone};
ghost use Rattle.std.specs.Prelude.{IfSome, MatchOption, MatchResult};
ghost use Rattle.std.specs.Io.KnownBytes.{IsAtEnd};
ghost use Rattle.fedi_model.specs.Requests.{length_in};
ghost use Rattle.fedi_http.specs.Chunks.{EndsInTrailer, HasBody, HasPartOfBody, HasPartOfData};
ghost use Rattle.fedi_http.specs.Chunks.{HasPartOfLine, HasPartOfTrailer, HasTrailer, IsNoCrlf};
ghost use Rattle.fedi_http.specs.Chunks.{IsPartOfCrlf, LacksTrailer, TellsEnding, crlf};
ghost use Rattle.fedi_http.specs.Chunks.{is_trailer as trailer_test};
ghost use Rattle.fedi_http.specs.Moves.{OnEnd, Reads, has_fault};
ghost use Rattle.fedi_http.specs.Readings.{IsContentRead, IsCrlfIn, IsCrlfRead, IsDataRead};
ghost use Rattle.fedi_http.specs.Readings.{IsLineIn, IsLineRead};

use crate::buffer::Buffer;
use crate::heads::ends_in_empty_line;
use crate::read_error::ReadError;
use fedi_model::{BODY_LIMIT, Coding, Refusal};
use fedi_outside::Source;
use httparse::{InvalidChunkSize, Status, parse_chunk_size};

/// The maximum number of bytes in the size line of a chunk, including its CR LF.
pub const LINE_LIMIT: usize = 256;

/// The maximum number of bytes in a trailer, including its empty line.
pub const TRAILER_LIMIT: usize = 16_384;

/// A size line: its length in bytes, and the number of bytes of data that it gives.
#[derive(Clone, Copy)]
pub(crate) struct Line {
    pub(crate) length: usize,
    pub(crate) size: u64,
}

/// Reads a body with this coding after the head. It takes the pending bytes first, and reads the
/// source only if they do not hold the whole body. The error is `Refused` with `BadHead` if a size
/// line is wrong or has no end within `LINE_LIMIT` bytes, if no CR LF follows the data of a chunk,
/// or if a trailer does not end within `TRAILER_LIMIT` bytes. It is `Refused` with `TooLong` as
/// soon as the sizes that were read add up to more than `BODY_LIMIT`. Otherwise it is `CutShort`,
/// `ReadFault` or `Memory`.
pub(crate) fn read_body<S: Source>(
    source: &mut S,
    buffer: &mut Buffer,
    coding: Coding,
) -> Result<(), ReadError>
    requires empty { buffer.old.body ≡ [] }
    requires bound { length_in coding ≤ BODY_LIMIT }
    ensures reads { Reads S.left S.read_faults S.beside_source source.old source.new
        (has_fault result) (HasPartOfBody BODY_LIMIT coding buffer.old.pending)
        (λ more. TellsEnding result (λ o. HasBody BODY_LIMIT coding (buffer.old.pending ++ more) o
        buffer.new.body buffer.new.pending)) }
    ensures ended { IfErr result (λ e. OnEnd e (IsAtEnd (S.left source.new))) }
{
    match coding {
        Coding::Length(size) => read_content(source, buffer, size),
        Coding::Chunked => read_chunks(source, buffer),
    }
}

// Reads a body in chunks. Joins their data in the buffer.
fn read_chunks<S: Source>(source: &mut S, buffer: &mut Buffer) -> Result<(), ReadError>
    requires { buffer.old.body ≡ [] }
    ensures reads { Reads S.left S.read_faults S.beside_source source.old source.new
        (has_fault result) (HasPartOfBody BODY_LIMIT Coding.Chunked buffer.old.pending)
        (λ more. TellsEnding result (λ o. HasBody BODY_LIMIT Coding.Chunked
        (buffer.old.pending ++ more) o buffer.new.body buffer.new.pending)) }
    ensures ended { IfErr result (λ e. OnEnd e (IsAtEnd (S.left source.new))) }
{
    'chunks: loop {
        let size = read_line(source, buffer)?;
        if size == 0 {
            return read_trailer(source, buffer);
        }
        if size > (BODY_LIMIT - buffer.body().len()) as u64 {
            return Err(ReadError::Refused(Refusal::TooLong));
        }
        read_data(source, buffer, size as usize)?;
    }
}

// Reads a size line, and returns the size.
fn read_line<S: Source>(source: &mut S, buffer: &mut Buffer) -> Result<u64, ReadError>
    requires { length buffer.old.body ≤ BODY_LIMIT }
    ensures reads { Reads S.left S.read_faults S.beside_source source.old source.new
        (has_fault result) (HasPartOfLine buffer.old.pending)
        (λ more. IsLineRead (buffer.old.pending ++ more) result buffer.new.pending) }
    ensures body { buffer.new.body ≡ buffer.old.body }
    ensures ended { IfErr result (λ e. OnEnd e (IsAtEnd (S.left source.new))) }
{
    'reads: loop {
        match line_in(buffer.pending())? {
            Some(line) => {
                buffer.skip(line.length);
                return Ok(line.size);
            }
            None => buffer.fill(source, LINE_LIMIT)?,
        }
    }
}

// The size line at the front, if it is whole. The error is `BadHead`: there is no valid line.
fn line_in(bytes: &[u8]) -> Result<Option<Line>, Refusal>
    ensures { IsLineIn bytes.now result }
{
    let front = &bytes[..bytes.len().min(LINE_LIMIT)];
    match parse_chunk_size(front) {
        Ok(Status::Complete((length, size))) => Ok(Some(Line { length, size })),
        Ok(Status::Partial) if front.len() < LINE_LIMIT => Ok(None),
        Ok(Status::Partial) => Err(Refusal::BadHead),
        Err(InvalidChunkSize) => Err(Refusal::BadHead),
    }
}

// Reads the data of a chunk and the CR LF after it, and joins the data to the body.
fn read_data<S: Source>(source: &mut S, buffer: &mut Buffer, size: usize) -> Result<(), ReadError>
    requires { length buffer.old.body + size ≤ BODY_LIMIT }
    ensures reads { Reads S.left S.read_faults S.beside_source source.old source.new
        (has_fault result) (HasPartOfData size buffer.old.pending)
        (λ more. IsDataRead size (buffer.old.pending ++ more) result buffer.old buffer.new) }
    ensures ended { IfErr result (λ e. OnEnd e (IsAtEnd (S.left source.new))) }
{
    read_content(source, buffer, size)?;
    read_crlf(source, buffer)
}

// Reads `size` bytes, and joins them to the body.
fn read_content<S: Source>(
    source: &mut S,
    buffer: &mut Buffer,
    size: usize,
) -> Result<(), ReadError>
    requires { length buffer.old.body + size ≤ BODY_LIMIT }
    ensures reads { Reads S.left S.read_faults S.beside_source source.old source.new
        (has_fault result) (length buffer.old.pending < size)
        (λ more. IsContentRead size (buffer.old.pending ++ more) result buffer.old buffer.new) }
    ensures ended { IfErr result (λ e. OnEnd e (IsAtEnd (S.left source.new))) }
{
    let mut wanted = size;
    'reads: loop {
        let count = buffer.pending().len().min(wanted);
        buffer.join(count);
        wanted -= count;
        if wanted == 0 {
            return Ok(());
        }
        buffer.fill(source, wanted)?;
    }
}

// Reads CR LF.
fn read_crlf<S: Source>(source: &mut S, buffer: &mut Buffer) -> Result<(), ReadError>
    requires { length buffer.old.body ≤ BODY_LIMIT }
    ensures reads { Reads S.left S.read_faults S.beside_source source.old source.new
        (has_fault result) (IsPartOfCrlf buffer.old.pending)
        (λ more. IsCrlfRead (buffer.old.pending ++ more) result buffer.new.pending) }
    ensures body { buffer.new.body ≡ buffer.old.body }
    ensures ended { IfErr result (λ e. OnEnd e (IsAtEnd (S.left source.new))) }
{
    'reads: while !begins_with_crlf(buffer.pending())? {
        buffer.fill(source, 2)?;
    }
    buffer.skip(2);
    Ok(())
}

// Whether the bytes begin with CR LF. `false` means that they are only a part of it. The error is
// `BadHead`: they begin with something else.
fn begins_with_crlf(bytes: &[u8]) -> Result<bool, Refusal>
    ensures { IsCrlfIn bytes.now result }
{
    match bytes {
        [b'\r', b'\n', ..] => Ok(true),
        [] | [b'\r'] => Ok(false),
        _ => Err(Refusal::BadHead),
    }
}

// Reads past a trailer.
fn read_trailer<S: Source>(source: &mut S, buffer: &mut Buffer) -> Result<(), ReadError>
    requires { length buffer.old.body ≤ BODY_LIMIT }
    ensures reads { Reads S.left S.read_faults S.beside_source source.old source.new
        (has_fault result) (HasPartOfTrailer buffer.old.pending)
        (λ more. TellsEnding result (λ o.
        EndsInTrailer (buffer.old.pending ++ more) o buffer.new.pending)) }
    ensures body { buffer.new.body ≡ buffer.old.body }
    ensures ended { IfErr result (λ e. OnEnd e (IsAtEnd (S.left source.new))) }
{
    let mut looked = 0;
    'reads: loop {
        if let Some(count) = trailer_in(buffer.pending(), looked) {
            buffer.skip(count);
            return Ok(());
        }
        looked = buffer.pending().len();
        if looked >= TRAILER_LIMIT {
            return Err(ReadError::Refused(Refusal::BadHead));
        }
        buffer.fill(source, TRAILER_LIMIT)?;
    }
}

// The length of the trailer at the front, if it is whole. No prefix of up to `looked` bytes is a
// trailer.
fn trailer_in(bytes: &[u8], looked: usize) -> Option<usize>
    requires within { looked ≤ length bytes.now }
    requires short { looked ≤ TRAILER_LIMIT }
    requires lacks { LacksTrailer looked bytes.now }
    ensures found { IfSome result (λ count.
        (count ≤ length bytes.now) × HasTrailer bytes.now (drop count bytes.now)) }
    ensures none { IfNone result (LacksTrailer (min (length bytes.now) TRAILER_LIMIT) bytes.now) }
{
    let upto = bytes.len().min(TRAILER_LIMIT);
    for at in looked..upto {
        if is_trailer(&bytes[..at + 1]) {
            return Some(at + 1);
        }
    }
    None
}

// Whether the text is an empty line, or lines that end with an empty one.
#[tactic(auto, unfolding(crate::specs::Chunks::is_trailer))]
fn is_trailer(text: &[u8]) -> bool
    ensures { result ≡ trailer_test text.now }
{
    text == b"\n".as_slice() || text == b"\r\n".as_slice() || ends_in_empty_line(text)
}
