//! The lock, its passes, and the value during a turn.
ghost use Rattle.std.specs.Prelude.{◌≡◌, ◌<◌, length};
ghost use Rattle.fedi_turn.specs.Gate.{IsGateSize, list_in, writer_in};

use crate::gate::{Content, GateTable, GateView};
use crate::grows::Grows;
use crate::line::Line;
use crate::record::{RecordTable, View};
use atomic_table::{Badge, Seat};

/// How long a turn is, by which it may come before others that wait.
#[derive(Clone, Copy, Debug, PartialEq, Eq)]
pub enum Span {
    /// Some microseconds: it takes the value at once if it is there, though others wait.
    Short,
    /// It may wait for what is outside, as a disk: it comes after all who wait.
    Long,
}

/// A value that one caller at a time has, each by a pass of the lock.
///
/// What it promises, it promises of calls that return. That a turn comes, in which order turns come,
/// and how long one waits, no contract promises. It is made so that nobody waits for long: callers
/// who do not find the value wait in a line, first come, first served. Only short turns pass the
/// first of them: after it was woken for the eighth time in vain, the value is left to it.
#[derive(Drop)]
pub struct TurnLock<V: Grows> {
    pub(crate) gate: GateTable<V>,
    // Those who wait at the gate.
    pub(crate) line: Line,
    pub(crate) log: RecordTable<V>,
    pub(crate) seats: u64,
    ghost sizes: { IsGateSize gate.shared.table_id × (log.shared.table_id.words ≡ 1) },
    ghost tie: { gate.shared.key.value.writer.table_id ≡ log.shared.table_id },
    ghost count: { ((writer_in gate.shared.key.value.writer.views).count ≡ seats) × (0 < seats) },
}

/// A caller's token of a lock whose list has items `I`. Contracts say whether it is idle or at
/// turn.
// While it is idle it has a seat of the gate and a reader's seat of the record; at turn both are
// blank.
#[derive(Drop)]
pub struct Pass<I> {
    pub(crate) gate: Badge<GateView<I>>,
    pub(crate) reader: Badge<View<I>>,
    pub(crate) number: u64,
    pub(crate) seen: u64,
    ghost seen_is: { seen ≡ length (list_in reader.views) },
}

/// The value during a turn. It cannot be dropped, so it has to be given back.
pub struct Held<V, I> {
    /// The value, to be read and changed.
    pub value: V,
    pub(crate) gate: Seat<Option<Content<V, I>>, GateView<I>>,
    pub(crate) writer: Badge<View<I>>,
    pub(crate) front: u64,
    ghost front_is: { front ≡ length (writer_in writer.views).list },
}
