//! Closing a store.
ghost use Rattle.std.specs.Prelude.{◌≡◌};
ghost use Rattle.fedi_journal.specs.Opening.{disk_of};
ghost use Rattle.fedi_log.specs.Keeping.{state_of};
ghost use Rattle.fedi_startup.specs.Stores.{IsClosed};

use crate::opening::StoreCore;
use fedi_journal::{Chain, SealedJournal};
use fedi_outside::{Disk, Keeper};

/// The disk of a machine that is closed. It has the records of the machine's history, followed by
/// at most the one in doubt, and so does whatever a crash may leave.
pub fn close_store<D: Disk>(core: StoreCore<D>) -> D
    ensures disk { result ≡ disk_of core.keeper }
    ensures closed { IsClosed (D.shown result) (D.crashes result)
        (state_of core.history (⟦<SealedJournal<D, Chain> as Keeper>⟧.shown core.keeper)) }
{
    core.close().into_disk()
}
