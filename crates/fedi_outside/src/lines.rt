//! Connections.
ghost use Rattle.std.specs.Prelude.{◌≡◌};

use crate::{Sink, Source};

/// One connection. Reads of it do not change what was sent, and writes to it do not change what is
/// to be read.
pub trait Line: Source + Sink {
    /// A read leaves the sent bytes and the count of failed writes unchanged.
    ghost reads_beside: { (line : Self) → Self.Source.beside_source line
        ≡ record { 0 = Self.Sink.sent line; 1 = Self.Sink.write_faults line } };

    /// A write leaves the bytes to come and the count of failed reads unchanged.
    ghost writes_beside: { (line : Self) → Self.Sink.beside_sink line
        ≡ record { 0 = Self.Source.left line; 1 = Self.Source.read_faults line } };
}
