//! Reading the head of a request from the bytes that were read.
ghost use Rattle.std.specs.Prelude.{◌≡◌, ◌+◌, ◌<◌, ◌≤◌, ◌++◌, length, min, IfOk, IfErr, IfSome};
ghost use Rattle.std.specs.Prelude.{IfNone, MatchOption};
ghost use Rattle.std.specs.Io.KnownBytes.{IsAtEnd};
ghost use Rattle.fedi_http.specs.Heads.{is_line_end as line_end, ends_in_empty_line as empty_line};
ghost use Rattle.fedi_http.specs.Heads.{HasNoHead, IsHeadAt, IsLookedAt, IsSettled, LacksHead};
ghost use Rattle.fedi_http.specs.Heads.{LacksLineFeed};
ghost use Rattle.fedi_http.specs.Moves.{OnEnd, Reads, has_fault};

use crate::buffer::Buffer;
use crate::read_error::ReadError;
use fedi_model::{BODY_LIMIT, Refusal};
use fedi_outside::Source;
use memchr::memchr;

/// The maximum number of bytes in a head, including the line ends before it.
pub const HEAD_LIMIT: usize = 16_384;

/// The position of a head in the pending bytes: its text is the bytes `start..end`, and it takes
/// the first `end` bytes.
#[derive(Clone, Copy)]
pub(crate) struct HeadPlace {
    pub(crate) start: usize,
    pub(crate) end: usize,
}

/// Reads the head of a request (RFC 9112, sections 2.1 and 2.2) from the source into the buffer,
/// until the pending bytes contain a head, or `HEAD_LIMIT` of them contain none, or the input ends.
/// Bytes that are already pending come first, and the source is read only if they contain no head.
/// The error `Refused` means that the head is too long.
///
/// Reading moves bytes from the source to the end of the pending bytes, and never loses any. The
/// head stays there until `skip`. After `ReadFault` and `Memory` the pending bytes contain no head.
pub(crate) fn read_head<S: Source>(
    source: &mut S,
    buffer: &mut Buffer,
) -> Result<HeadPlace, ReadError>
    requires { length buffer.old.body ≤ BODY_LIMIT }
    ensures reads { Reads S.left S.read_faults S.beside_source source.old source.new
        (has_fault result) (LacksHead HEAD_LIMIT buffer.old.pending)
        (λ more. buffer.new.pending ≡ buffer.old.pending ++ more) }
    ensures body { buffer.new.body ≡ buffer.old.body }
    ensures head { IfOk result (λ head.
        IsHeadAt HEAD_LIMIT buffer.new.pending head.start head.end) }
    ensures none { IfErr result (HasNoHead HEAD_LIMIT buffer.new.pending) }
    ensures ended { IfErr result (λ e. OnEnd e (IsAtEnd (S.left source.new))) }
{
    let mut search = Search {
        looked: 0,
        start: 0,
    };
    'reads: loop {
        if let Some(end) = search.look(buffer.pending()) {
            return Ok(HeadPlace {
                start: search.start,
                end,
            });
        }
        if search.looked == HEAD_LIMIT {
            return Err(ReadError::Refused(Refusal::HeadTooLong));
        }
        if let Err(error) = buffer.fill(source, HEAD_LIMIT) {
            return Err(error.after(search.looked));
        }
    }
}

// How far the pending bytes were searched, so that no byte is searched again when more arrive.
#[derive(Clone, Copy)]
struct Search {
    looked: usize,
    // How many of these bytes are leading line ends.
    start: usize,
}

impl Search {
    // Looks for the end of a head in the first `HEAD_LIMIT` bytes. `start` is then the offset of
    // its text.
    fn look(&mut self, bytes: &[u8]) -> Option<usize>
        requires known { IsLookedAt bytes.now self.old.looked self.old.start }
        requires within { self.old.looked ≤ HEAD_LIMIT }
        ensures found { IfSome result (λ end. IsHeadAt HEAD_LIMIT bytes.now self.new.start end) }
        ensures none { IfNone result (IsLookedAt bytes.now self.new.looked self.new.start) }
        ensures all { IfNone result (self.new.looked ≡ min HEAD_LIMIT (length bytes.now)) }
    {
        let upto = bytes.len().min(HEAD_LIMIT);
        self.skip_line_ends(bytes, upto);
        'lines: while let Some(at) = next_line_feed(bytes, self.looked, upto) {
            if ends_in_empty_line(&bytes[self.start..at + 1]) {
                return Some(at + 1);
            }
            self.looked = at + 1;
        }
        self.looked = upto;
        None
    }

    // Skips the leading line ends, up to `upto`. The start of the text is then settled for all of
    // these bytes.
    fn skip_line_ends(&mut self, bytes: &[u8], upto: usize)
        requires known { IsLookedAt bytes.now self.old.looked self.old.start }
        requires within { self.old.looked ≤ upto }
        requires inside { upto ≤ length bytes.now }
        ensures known { IsLookedAt bytes.now self.new.looked self.new.start }
        ensures within { self.new.looked ≤ upto }
        ensures settled { IsSettled bytes.now self.new.looked upto self.new.start }
    {
        'ends: while self.start == self.looked && self.looked < upto {
            if !is_line_end(bytes[self.looked]) {
                return;
            }
            self.looked += 1;
            self.start = self.looked;
        }
    }
}

// The offset of the next LF, from `from` up to `upto`.
fn next_line_feed(bytes: &[u8], from: usize, upto: usize) -> Option<usize>
    requires ordered { from ≤ upto }
    requires inside { upto ≤ length bytes.now }
    ensures { MatchOption result
        (LacksLineFeed bytes.now from upto)
        (λ at. (from ≤ at) × (at < upto) × LacksLineFeed bytes.now from at) }
{
    match memchr(b'\n', &bytes[from..upto]) {
        Some(more) => Some(from + more),
        None => None,
    }
}

// Whether the byte is CR or LF.
fn is_line_end(byte: u8) -> bool
    ensures { result ≡ line_end byte }
{
    byte == b'\r' || byte == b'\n'
}

// Whether a text ends with an empty line.
pub(crate) fn ends_in_empty_line(text: &[u8]) -> bool
    ensures { result ≡ empty_line text.now }
{
    text.ends_with(b"\n\n") || text.ends_with(b"\n\r\n")
}
