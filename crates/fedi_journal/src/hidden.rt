//! A file that is not yet a journal.
ghost use Rattle.std.specs.Prelude.{◌≡◌, ◌≤◌, [], false};

use crate::chains::HiddenChain;
use crate::journal::SealedJournal;
use fedi_outside::Disk;

/// A file that is not yet a journal, so that no opening takes it for one until it is whole.
#[derive(Drop)]
pub struct Hidden<D: Disk> {
    pub(crate) journal: SealedJournal<D, HiddenChain>,
    ghost fresh: { journal.gates.items ≡ [] },
    ghost sure: { journal.in_doubt ≡ false },
    ghost begun: { 8 ≤ journal.end },
}
