//! A file whose calls may fail.
ghost use Rattle.std.specs.Prelude.{ℕ, ◌+◌, ◌^◌, ◌<◌, length, OnOk};
ghost use Rattle.fedi_outside.specs.Causes.{HasCause};

use fedi_outside::Failed;

/// A file of the machine. No contract says what it holds; exactly the calls that fail are counted.
pub trait RawFile {
    /// How many calls failed. The count saturates at 2^64 - 1.
    ghost faults: { Self → ℕ };

    /// How many bytes it has.
    fn size(&mut self) -> Result<u64, Failed>
        ensures cause { HasCause (faults self.old) (faults self.new) result };

    /// Reads the bytes at this offset, as many as there is room for. It is an error if there are
    /// fewer, and then `into` may hold any bytes.
    fn read_at(&mut self, at: u64, into: &mut [u8]) -> Result<(), Failed>
        ensures cause { HasCause (faults self.old) (faults self.new) result };

    /// Writes these bytes at this offset. It is an error if they end at 2^64 or after it. After an
    /// error the range may hold any bytes.
    fn write_at(&mut self, at: u64, from: &[u8]) -> Result<(), Failed>
        ensures end { OnOk result (at + length from.now < 2 ^ 64) }
        ensures cause { HasCause (faults self.old) (faults self.new) result };

    /// Makes everything that was written durable.
    fn sync(&mut self) -> Result<(), Failed>
        ensures cause { HasCause (faults self.old) (faults self.new) result };
}
