//! Playing a script that is read from the input.

ghost use Rattle.std.specs.Prelude.{◌≡◌, IfErr, IfOk, IfSome, OnOk};
ghost use Rattle.fedi_program.specs.Endings.{HasCauses};
ghost use Rattle.fedi_program.specs.Playing.{IsScriptOf, PlaysScript, reads_after};
ghost use Rattle.fedi_program.specs.Seen.{faults, scene};

use crate::printing::{print, report};
use crate::statuses::{OUT_OF_MEMORY, READ_FAULT, REFUSED};
use fedi_logged::Connection;
use fedi_outside::{Failed, Sink, Source};
use fedi_play::{LONGEST, play};
use std::alloc::{AllocError, Global};

/// How many bytes are read at once.
const PIECE: usize = 4096;

/// Why a script was not read.
#[derive(Clone, Copy)]
pub(crate) enum ScriptFault {
    /// A read failed.
    Failed,
    /// Out of memory.
    Memory,
}

impl From<AllocError> for ScriptFault {
    ghost use Rattle.fedi_program.specs.declared.playing.ScriptFault.TheVariants.{Memory};

    ghost from_gives = { λ _ fault. fault ≡ Memory };

    fn from(_error: AllocError) -> ScriptFault {
        ScriptFault::Memory
    }
}

/// The bytes of the input: all of them, or more than a script may have.
fn read_script<S: Source>(alloc: Global, input: &mut S) -> Result<Vec<u8>, ScriptFault>
    ensures script { IfOk result (λ script.
        IfSome (S.left input.old) (λ bytes. IsScriptOf bytes script.items)) }
    ensures calm { OnOk result (S.read_faults input.new ≡ S.read_faults input.old) }
    ensures fault { IfErr result (λ fault.
        S.read_faults input.new ≡ reads_after fault (S.read_faults input.old)) }
{
    let mut script = Vec::new(alloc);
    let mut piece = [0; PIECE];
    'pieces: while script.len() <= LONGEST {
        let count = match input.read(&mut piece) {
            Ok(count) => count,
            Err(Failed) => return Err(ScriptFault::Failed),
        };
        if count == 0 {
            return Ok(script);
        }
        script.extend_from_slice(&piece[..count])?;
    }
    Ok(script)
}

/// Plays the script that is the input, and prints what happens. Returns the exit status: 0, 6 if a
/// read failed, 7 if a write failed, 10 if a line is refused or the script is too long, or 12 if
/// memory ran out. At 6 and 12 nothing is printed.
pub fn play_script<S: Source, O: Sink, C>(alloc: Global, connection: &mut Connection<S, O, C>) -> u8
    ensures played { PlaysScript
        (scene S.Source O.Sink connection.old.input connection.old.out)
        (scene S.Source O.Sink connection.new.input connection.new.out) result }
    ensures causes { HasCauses
        (faults S.Source O.Sink connection.old.input connection.old.out)
        (faults S.Source O.Sink connection.new.input connection.new.out) result }
    ensures clock { connection.new.clock ≡ connection.old.clock }
{
    let script = match read_script(alloc, &mut connection.input) {
        Ok(script) => script,
        Err(ScriptFault::Failed) => return READ_FAULT,
        Err(ScriptFault::Memory) => return OUT_OF_MEMORY,
    };
    match play(alloc, &script) {
        Ok(played) if played.refused => report(&mut connection.out, REFUSED, &played.text),
        Ok(played) => print(&mut connection.out, &played.text),
        Err(AllocError) => OUT_OF_MEMORY,
    }
}
