//! The real input, output, clock and source of random bytes. They report what they hold as far as
//! std reports it.
ghost use Rattle.std.specs.Prelude.{◌≡◌, ◌<◌, ℕ, None, IfOk, OnOk, codes, is_some, length};
ghost use Rattle.std.specs.Io.{ReadsAtMost, WritesAtMost};
ghost use Rattle.std.specs.Io.KnownBytes.{ReadConsumes, WriteAppends};
ghost use Rattle.fedi_outside.specs.Causes.{HasCause};
ghost use Rattle.fedi_outside.specs.Entropies.{FillConsumes};
ghost use Rattle.fedi_adapters.specs.System.{IsReadOf, seconds_shown};

use fedi_outside::{Clock, Entropy, Failed, Sink, Source};
use std::fs::File;
use std::io::{self, Read, Write};
use std::rt::Files;
use std::time::{SystemTime, UNIX_EPOCH};

/// A reader of std as a source: each error is a counted fault.
#[derive(Drop)]
pub struct Reading<R> {
    reader: R,
    faults: u64,
}

impl<R: Read> Reading<R> {
    /// The reader, with no fault so far.
    pub fn new(reader: R) -> Self
        ensures reader { result.reader ≡ reader }
        ensures faults { result.faults ≡ 0 }
    {
        Reading { reader, faults: 0 }
    }
}

// std does not say that a reader that reports nothing of its bytes continues to do so, but a source
// has to. So `left` reports nothing, and `passes` reports the bytes.
impl<R: Read> Source for Reading<R> {
    ghost left = { λ _. None };

    ghost read_faults = { λ s. s.faults };

    ghost beside_source = { λ _. record { 0 = None; 1 = 0 } };

    fn read(&mut self, into: &mut [u8]) -> Result<usize, Failed>
        ensures bound { ReadsAtMost result into.new }
        ensures passes { ReadConsumes (R.remaining self.old.reader) (R.remaining self.new.reader)
            result into.new }
        ensures cause { HasCause self.old.faults self.new.faults result }
    {
        match self.reader.read(into) {
            Ok(count) => Ok(count),
            Err(_) => {
                self.faults = self.faults.saturating_add(1);
                Err(Failed)
            }
        }
    }
}

/// A writer of std as a sink: each error is a counted fault, and so is a write that takes nothing.
#[derive(Drop)]
pub struct Writing<W> {
    writer: W,
    faults: u64,
}

impl<W: Write> Writing<W> {
    /// The writer, with no fault so far.
    pub fn new(writer: W) -> Self
        ensures writer { result.writer ≡ writer }
        ensures faults { result.faults ≡ 0 }
    {
        Writing { writer, faults: 0 }
    }
}

// As for a reader, std does not say that a writer that reports nothing continues to do so.
impl<W: Write> Sink for Writing<W> {
    ghost sent = { λ _. None };

    ghost write_faults = { λ s. s.faults };

    ghost beside_sink = { λ _. record { 0 = None; 1 = 0 } };

    fn write(&mut self, from: &[u8]) -> Result<usize, Failed>
        ensures bound { WritesAtMost result from.now }
        ensures some { 0 < length from.now → IfOk result (λ count. 0 < count) }
        ensures passes { WriteAppends (W.contents self.old.writer) (W.contents self.new.writer)
            result from.now }
        ensures cause { HasCause self.old.faults self.new.faults result }
    {
        match self.writer.write(from) {
            Ok(count) if count > 0 || from.is_empty() => Ok(count),
            _ => {
                self.faults = self.faults.saturating_add(1);
                Err(Failed)
            }
        }
    }
}

/// The machine's clock, which returns 0 if the machine gives no time or one before 1970.
#[derive(Drop)]
pub struct SystemClock<'a, R> {
    rt: &'a R,
}

impl<'a, R: std::rt::Clock> SystemClock<'a, R> {
    /// The clock of this runtime.
    pub fn new(rt: &'a R) -> Self {
        SystemClock { rt }
    }
}

// std does not say what the machine's clock shows. `seconds_of` says what is made of it.
impl<R: std::rt::Clock> Clock for SystemClock<'_, R> {
    ghost told = { λ _. None };

    fn now(&self) -> u64 {
        seconds_of(SystemTime::now(self.rt))
    }
}

// The whole seconds from the beginning of 1970 to the time that the machine shows, or 0.
fn seconds_of(shown: io::Result<SystemTime>) -> u64
    ensures { result ≡ seconds_shown shown }
{
    match shown {
        Ok(time) => match time.duration_since(UNIX_EPOCH) {
            Ok(since) => since.as_secs(),
            Err(_) => 0,
        },
        Err(_) => 0,
    }
}

/// The file at a path as a source of random bytes, opened for each draw. A draw that does not open
/// it, or does not read all the bytes it needs, is a counted fault.
#[derive(Drop)]
pub struct SystemEntropy<'a, R> {
    rt: &'a R,
    path: &'a str,
    faults: u64,
}

impl<'a, R: Files> SystemEntropy<'a, R> {
    /// The system's own source. Nothing is opened yet.
    pub fn new(rt: &'a R) -> Self
        ensures path { result.path.now ≡ codes "/dev/urandom" }
        ensures faults { result.faults ≡ 0 }
    {
        SystemEntropy {
            rt,
            path: "/dev/urandom",
            faults: 0,
        }
    }
}

impl<R: Files> Entropy for SystemEntropy<'_, R> {
    ghost next = { λ _. None };

    ghost faults = { λ s. s.faults };

    fn fill(&mut self, into: &mut [u8; 32]) -> Result<(), Failed>
        ensures read { OnOk result (IsReadOf R.File.remaining into.new) }
        ensures bytes { FillConsumes None None result into.new }
        ensures cause { HasCause self.old.faults self.new.faults result }
    {
        match read_file(self.rt, self.path, into) {
            Ok(()) => Ok(()),
            Err(_) => {
                self.faults = self.faults.saturating_add(1);
                Err(Failed)
            }
        }
    }
}

// Opens the file at this path, and reads as many bytes as there is room for.
fn read_file<R: Files>(rt: &R, path: &str, into: &mut [u8]) -> io::Result<()>
    ensures { OnOk result (IsReadOf R.File.remaining into.new) }
{
    let mut file = File::open(rt, path)?;
    file.read_exact(into)
}
