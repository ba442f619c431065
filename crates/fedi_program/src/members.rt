//! Making a member, as an operator asks.

ghost use Rattle.std.specs.Prelude.{◌≡◌, IfOk, IsTrue, None, is_some};
ghost use Rattle.fedi_log.specs.Keeping.{base_of, state_of};
ghost use Rattle.fedi_log.specs.Log.{given};
ghost use Rattle.fedi_logged.specs.Marks.{SurvivesMarked};
ghost use Rattle.fedi_program.specs.Members.{MakesMember, key_line};
ghost use Rattle.fedi_program.specs.Seen.{chance, output};
ghost use Rattle.fedi_town.specs.Histories.{town};

use crate::enrolling::enroll;
use crate::printing::report;
use crate::statuses::{READ_FAULT, REFUSED};
use fedi_address::LocalName;
use fedi_core::Core;
use fedi_index::IndexedShelf;
use fedi_mac::{digest, hex_text};
use fedi_objects::Entry;
use fedi_outside::{Clock, Entropy, Keeper, Sink};
use fedi_text::Moment;
use std::alloc::{AllocError, Global};

/// The line that gives the operator the key of a new member. The error is out of memory.
#[tactic(auto, unfolding(crate::specs::Members::key_line))]
fn key_line(alloc: Global, name: &str, key: &[u8; 32]) -> Result<Vec<u8>, AllocError>
    ensures { IfOk result (λ line. line.items ≡ key_line name.now key.now) }
{
    let mut line = Vec::new(alloc);
    line.extend_from_slice(name.as_bytes())?;
    line.push(b' ')?;
    line.extend_from_slice(&hex_text(key))?;
    line.push(b'\n')?;
    Ok(line)
}

/// Makes a member of this name, as an operator asks: draws a key, keeps an entry with the digest of
/// the key, and prints the name with the key, which is shown only this once and never kept. Returns
/// the exit status: at 0 and 7 a member was made. At 5 the disk failed: the member was not made,
/// unless the disk failed again when it was to undo what it had of the entry, and then the next
/// opening may find it.
pub fn make_member<O: Sink, P: Keeper, C: Clock, E: Entropy>(
    alloc: Global,
    core: &mut Core<IndexedShelf, P>,
    out: &mut O,
    clock: &C,
    entropy: &mut E,
    name: &str,
    locked: bool,
) -> u8
    requires hosted { IsTrue (is_some (town core.old.history).host) }
    ensures made { MakesMember P.growth P.room (C.told clock.now)
        (chance E.Entropy entropy.old) (chance E.Entropy entropy.new)
        (state_of core.old.history (P.shown core.old.keeper))
        (state_of core.new.history (P.shown core.new.keeper))
        (output O.Sink out.old) (output O.Sink out.new) name.now locked result }
    ensures crashes { SurvivesMarked
        (base_of P.growth P.room (state_of core.old.history (P.shown core.old.keeper)))
        None (given core.old.history) (state_of core.new.history (P.shown core.new.keeper))
        (P.crashes core.old.keeper) (P.crashes core.new.keeper) }
{
    let mut key = [0; 32];
    let Ok(()) = entropy.fill(&mut key) else {
        return READ_FAULT;
    };
    let moment = Moment::clamped(clock.now());
    let Some(member) = LocalName::parse(name) else {
        return report(out, REFUSED, b"refused: bad name\n");
    };
    let entry = Entry::Made {
        name: member,
        digest: digest(&key),
        locked,
        moment,
    };
    enroll(alloc, core, out, entry, key_line(alloc, name, &key))
}
