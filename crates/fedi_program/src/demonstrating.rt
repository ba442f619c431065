//! Printing a demonstration.

ghost use Rattle.fedi_program.specs.Demonstrating.{Demonstrates};
ghost use Rattle.fedi_program.specs.Seen.{output};

use crate::printing::print;
use crate::statuses::OUT_OF_MEMORY;
use fedi_demo::demonstration;
use fedi_effects::Seed;
use fedi_outside::Sink;
use std::alloc::{AllocError, Global};

/// Prints the text of the demonstration with this number. The result is the exit status: 0, 7 if a
/// write failed, or 12 if memory ran out, and then nothing is printed.
pub fn demo<O: Sink>(alloc: Global, seed: Seed, out: &mut O, number: u16) -> u8
    ensures { Demonstrates number (output O.Sink out.old) (output O.Sink out.new) result }
{
    match demonstration(alloc, seed, number) {
        Ok(text) => print(out, &text),
        Err(AllocError) => OUT_OF_MEMORY,
    }
}
