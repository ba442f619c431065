//! The bytes that were read.
ghost use Rattle.std.specs.Prelude.{◌≡◌, ◌+◌, ◌<◌, ◌≤◌, ◌++◌, [], length, take, drop, IfOk, IfErr};
ghost use Rattle.std.specs.Prelude.{OnOk, OnErr, if◌then◌else◌};
ghost use Rattle.std.specs.Io.KnownBytes.{Consumes, IsAtEnd};
ghost use Rattle.fedi_outside.specs.Causes.{next_count};
ghost use Rattle.fedi_http.specs.Moves.{OnEnd, Reads, ReadsBehind, StopsReading, has_fault};

use crate::heads::HEAD_LIMIT;
use crate::read_error::ReadError;
use fedi_model::BODY_LIMIT;
use fedi_outside::{Failed, Source};
use std::alloc::{AllocError, Global};
use std::marker::Model;

/// The maximum number of bytes in a buffer, used or free: those of one head and one body.
pub const BUFFER_LIMIT: usize = HEAD_LIMIT + BODY_LIMIT;

/// The body of the last request, and the pending bytes: those after it that were read and are not
/// used yet. It has at most `BUFFER_LIMIT` bytes, used or free.
#[derive(Drop)]
pub struct Buffer {
    bytes: Vec<u8>,
    // The body is the first `held` bytes, and the pending bytes are the `count` bytes from `start`
    // on. The rest is free. The bytes between the two were used up: a body that arrives in chunks
    // is joined there.
    held: usize,
    start: usize,
    count: usize,
}

impl Model for Buffer {
    ghost use Rattle.std.specs.Prelude.{◌+◌, ◌≤◌, length, take, drop};
    ghost use Rattle.fedi_http.specs.Moves.{Held};
    ghost use Rattle.fedi_http.specs.declared.buffer.TheConstants.{BUFFER_LIMIT};

    ghost Value = { Held };

    ghost view = { λ b. record {
      body = take b.held b.bytes.items;
      pending = take b.count (drop b.start b.bytes.items);
    } };

    ghost invariant = { λ b. (b.held ≤ b.start) × (b.start + b.count ≤ length b.bytes.items)
        × (length b.bytes.items ≤ BUFFER_LIMIT) };
}

impl Buffer {
    /// A buffer with no body and no pending bytes, which allocates nothing yet.
    pub fn new(alloc: Global) -> Self
        ensures { result ≡ record { body = []; pending = [] } }
    {
        Buffer {
            bytes: Vec::new(alloc),
            held: 0,
            start: 0,
            count: 0,
        }
    }

    /// The pending bytes.
    pub fn pending(&self) -> &[u8]
        ensures pending { result.now ≡ self.now.pending }
        ensures bound { length self.now.body + length self.now.pending ≤ BUFFER_LIMIT }
    {
        &self.bytes[self.start..self.start + self.count]
    }

    /// The body of the last request that was read.
    pub fn body(&self) -> &[u8]
        ensures body { result.now ≡ self.now.body }
        ensures bound { length self.now.body + length self.now.pending ≤ BUFFER_LIMIT }
    {
        &self.bytes[..self.held]
    }

    // Drops this many bytes from the front of the pending bytes.
    pub(crate) fn skip(&mut self, count: usize)
        requires { count ≤ length self.old.pending }
        ensures body { self.new.body ≡ self.old.body }
        ensures pending { self.new.pending ≡ drop count self.old.pending }
    {
        self.start += count;
        self.count -= count;
    }

    // Drops the body.
    pub(crate) fn drop_body(&mut self)
        ensures body { self.new.body ≡ [] }
        ensures pending { self.new.pending ≡ self.old.pending }
    {
        self.held = 0;
    }

    // Moves this many bytes from the front of the pending bytes to the end of the body.
    pub(crate) fn join(&mut self, count: usize)
        requires { count ≤ length self.old.pending }
        ensures body { self.new.body ≡ self.old.body ++ take count self.old.pending }
        ensures pending { self.new.pending ≡ drop count self.old.pending }
    {
        move_down(&mut self.bytes, self.held, self.start, count);
        self.held += count;
        self.start += count;
        self.count -= count;
    }

    // Reads once into the free bytes after the pending bytes; together these are at least `limit`
    // bytes. The error is `CutShort` at the end of the input, `ReadFault` or `Memory`. After an
    // error no byte was read.
    pub(crate) fn fill<S: Source>(&mut self, source: &mut S, limit: usize) -> Result<(), ReadError>
        requires short { length self.old.pending < limit }
        requires bound { length self.old.body + limit ≤ BUFFER_LIMIT }
        ensures reads { Reads S.left S.read_faults S.beside_source source.old source.new
            (has_fault result) (Unit {0})
            (λ more. self.new.pending ≡ self.old.pending ++ more) }
        ensures body { self.new.body ≡ self.old.body }
        ensures more { OnOk result (length self.old.pending < length self.new.pending) }
        ensures same { OnErr result (self.new.pending ≡ self.old.pending) }
        ensures ended { IfErr result (λ e. OnEnd e (IsAtEnd (S.left source.new))) }
        ensures errors { IfErr result StopsReading }
    {
        make_room(&mut self.bytes, self.held, self.start, self.count, limit)?;
        self.start = self.held;
        self.count += read_behind(source, &mut self.bytes, self.start, self.count)?;
        Ok(())
    }
}

// Moves the `count` bytes at `from` down to `to`.
fn move_down(bytes: &mut [u8], to: usize, from: usize, count: usize)
    requires down { to ≤ from }
    requires within { from + count ≤ length bytes.old }
    ensures front { take to bytes.new ≡ take to bytes.old }
    ensures moved { take count (drop to bytes.new) ≡ take count (drop from bytes.old) }
    ensures joined { take (to + count) bytes.new
        ≡ take to bytes.old ++ take count (drop from bytes.old) }
    ensures behind { drop (from + count) bytes.new ≡ drop (from + count) bytes.old }
{
    if to < from {
        bytes.copy_within(from..from + count, to);
    }
}

// Moves the `count` bytes at `from` down to `to`. There is then room for `limit` bytes from `to`
// on, and for a head as far as `BUFFER_LIMIT` allows.
fn make_room(
    bytes: &mut Vec<u8>,
    to: usize,
    from: usize,
    count: usize,
    limit: usize,
) -> Result<(), AllocError>
    requires down { to ≤ from }
    requires within { from + count ≤ length bytes.old.items }
    requires bound { to + limit ≤ BUFFER_LIMIT }
    requires bounded { length bytes.old.items ≤ BUFFER_LIMIT }
    ensures front { OnOk result (take to bytes.new.items ≡ take to bytes.old.items) }
    ensures moved { OnOk result
        (take count (drop to bytes.new.items) ≡ take count (drop from bytes.old.items)) }
    ensures fits { OnOk result (to + count ≤ length bytes.new.items) }
    ensures room { OnOk result (to + limit ≤ length bytes.new.items) }
    ensures bounded { OnOk result (length bytes.new.items ≤ BUFFER_LIMIT) }
    ensures failed { OnErr result (bytes.new.items ≡ bytes.old.items) }
{
    let room = (to + limit.max(HEAD_LIMIT)).min(BUFFER_LIMIT);
    if bytes.len() < room {
        bytes.resize(room, 0)?;
    }
    move_down(bytes, to, from, count);
    Ok(())
}

// Reads into the free bytes after the `count` bytes at `start`, and returns how many bytes were
// read. The error is `CutShort` at the end of the input, or `ReadFault`.
fn read_behind<S: Source>(
    source: &mut S,
    bytes: &mut [u8],
    start: usize,
    count: usize,
) -> Result<usize, ReadError>
    requires { start + count < length bytes.old }
    ensures front { take start bytes.new ≡ take start bytes.old }
    ensures kept { take count (drop start bytes.new) ≡ take count (drop start bytes.old) }
    ensures bound { IfOk result (λ n. start + count + n ≤ length bytes.new) }
    ensures read { IfOk result (λ n. ReadsBehind (S.left source.old) (S.left source.new)
        (take count (drop start bytes.old)) (take (count + n) (drop start bytes.new))) }
    ensures some { IfOk result (λ n. 0 < n) }
    ensures failed { OnErr result (Consumes (S.left source.old) (S.left source.new) []) }
    ensures beside { S.beside_source source.new ≡ S.beside_source source.old }
    ensures faults { S.read_faults source.new ≡ (if has_fault result
        then next_count (S.read_faults source.old) else S.read_faults source.old) }
    ensures ended { IfErr result (λ e. OnEnd e (IsAtEnd (S.left source.new))) }
    ensures errors { IfErr result StopsReading }
{
    match source.read(&mut bytes[start + count..]) {
        Ok(0) => Err(ReadError::CutShort),
        Ok(more) => Ok(more),
        Err(Failed) => Err(ReadError::ReadFault),
    }
}
