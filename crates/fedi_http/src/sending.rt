//! Writing a whole text to a sink.
ghost use Rattle.std.specs.Prelude.{◌≡◌, is_some};
ghost use Rattle.fedi_outside.specs.Causes.{HasCause};
ghost use Rattle.fedi_http.specs.Sending.{Sends};

use fedi_outside::{Failed, Sink};

/// Sends all of the bytes, in as many writes as the sink needs. The error is that a write failed:
/// only a proper prefix of the bytes was sent.
pub fn send<K: Sink>(sink: &mut K, bytes: &[u8]) -> Result<(), Failed>
    ensures bytes { Sends (K.sent sink.old) (K.sent sink.new) bytes.now result }
    ensures told { is_some (K.sent sink.new) ≡ is_some (K.sent sink.old) }
    ensures beside { K.beside_sink sink.new ≡ K.beside_sink sink.old }
    ensures cause { HasCause (K.write_faults sink.old) (K.write_faults sink.new) result }
{
    let mut done = 0;
    'writes: while done < bytes.len() {
        done += sink.write(&bytes[done..])?;
    }
    Ok(())
}
