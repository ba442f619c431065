//! What a run prints, and the exit status that it then has.

ghost use Rattle.std.specs.Prelude.{OnErr, OnOk, []};
ghost use Rattle.fedi_logged.specs.Endings.{BreaksOff, Writes};
ghost use Rattle.fedi_program.specs.Endings.{Prints};
ghost use Rattle.fedi_program.specs.Members.{Reports};
ghost use Rattle.fedi_program.specs.Seen.{output};

use crate::statuses::{DONE, WRITE_FAULT};
use fedi_http::send;
use fedi_outside::{Failed, Sink};

/// Writes the text. The error is that a write failed; then a proper prefix of the text was written.
pub fn write<O: Sink>(out: &mut O, text: &[u8]) -> Result<(), Failed>
    ensures written { OnOk result
        (Writes (output O.Sink out.old) (output O.Sink out.new) text.now) }
    ensures broken { OnErr result
        (BreaksOff (output O.Sink out.old) (output O.Sink out.new) [] text.now) }
{
    send(out, text)
}

/// Prints the text of a run that is done. Returns the exit status: 0, or 7 if a write failed.
pub fn print<O: Sink>(out: &mut O, text: &[u8]) -> u8
    ensures { Prints (output O.Sink out.old) (output O.Sink out.new) text.now result }
{
    match write(out, text) {
        Ok(()) => DONE,
        Err(Failed) => WRITE_FAULT,
    }
}

/// Prints the text for a status other than 0. The status stays if a write failed.
pub fn report<O: Sink>(out: &mut O, status: u8, text: &[u8]) -> u8
    ensures { Reports (output O.Sink out.old) (output O.Sink out.new) status text.now result }
{
    let _ = write(out, text);
    status
}
