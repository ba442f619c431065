//! The gate: a table with one word and one slot. The word is `HOME` or `LEFT` while the value lies
//! in the slot.
//!
//! Callers who do not find the value wait in a line. The first in the line alone looks at the gate,
//! and sleeps there. A running caller may take the value before it, but
//! not more than `MOST_PASSES` times: then the value is left to it.
ghost use Rattle.std.specs.Prelude.{◌≡◌, ◌∷◌, [], IfSome, IfNone};
ghost use Rattle.fedi_turn.specs.Gate.{facts_of, inside, outside, HasValue, IsGateSize, IsHome};
ghost use Rattle.fedi_turn.specs.Gate.{LacksValue};

use crate::grows::Grows;
use crate::line::Line;
use crate::lock::Span;
use crate::record::View;
use atomic_table::{Badge, Join, Play, Seat, Shared, Split, Table, TableRule};
use std::alloc::Global;
use std::collections::LinkedList;
use std::hint::spin_loop;
use std::marker::PhantomData;
use std::snapshot::Snapshot;
use std::sync::Wait;

// The value lies in the slot, and whoever comes takes it.
pub(crate) const HOME: u64 = 1;

// The value lies in the slot, and the first in the line takes it.
const LEFT: u64 = 3;

// The value is out, and no caller is parked.
const OUT: u64 = 0;

// The value is out, and the first in the line may be parked, so that the next `put_value` wakes it.
const AWAITED: u64 = 2;

// The same, and others took the value before the first in the line as often as they may.
const CLAIMED: u64 = 4;

// How often a caller looks for the value before it parks: for about a microsecond, or some where
// the processor's pause is long.
const LOOKS: u32 = 100;

// How often others may take the value before the first in the line, which slept and was woken. Each
// time the value is at work while the sleeper wakes, which takes longer than a short turn.
const MOST_PASSES: u64 = 8;

/// What lies in the slot: the value with the writer of the record.
#[derive(Drop)]
pub struct Content<V, I> {
    pub value: V,
    pub writer: Badge<View<I>>,
}

/// What each seat of the gate knows. No value of it is made.
pub struct GateFacts<I> {
    pub record_id: Badge<View<I>>,
    pub seats: u64,
    pub start: LinkedList<I>,
    pub base: LinkedList<u64>,
}

/// What a seat of the gate knows, until another seat takes it in. No value of it is made.
pub enum GateView<I> {
    NoFacts,
    Facts(GateFacts<I>),
}

/// The rule of the gate.
pub struct Gate<V> {
    marker: PhantomData<V>,
}

impl<V: Grows> TableRule<
    Option<Content<V, V::Item>>,
    GateView<V::Item>,
    Snapshot<Content<V, V::Item>>,
> for Gate<V> {
    ghost use Rattle.fedi_turn.specs.Gate.{facts_of, IsGate};
    ghost use Rattle.fedi_turn.specs.declared.gate.GateView.TheVariants.{Facts};

    ghost holds = { λ key. IsGate V.list V.base (facts_of V.list V.base key.value) };

    ghost first = { λ key. Facts (facts_of V.list V.base key.value) };
}

/// A seat takes the slot, where the value is at home.
pub struct TakeOut<V> {
    marker: PhantomData<V>,
}

impl<V: Grows> Play<Option<Content<V, V::Item>>, GateView<V::Item>> for TakeOut<V> {
    ghost use Rattle.fedi_turn.specs.Gate.{TakesOut};

    ghost then = { TakesOut V.list V.base };
}

/// A seat changes the word, and the slot stays as it is.
pub struct Mark;

impl<S, I> Play<S, GateView<I>> for Mark {
    ghost then = { λ _ me _ after. after ≡ me };
}

/// A seat gives the slot back with the value in it.
pub struct PutBack;

impl<S, I> Play<S, GateView<I>> for PutBack {
    ghost use Rattle.fedi_turn.specs.Gate.{PutsBack};

    ghost then = { PutsBack };
}

/// Seats know the same.
pub struct Same;

impl<I> Split<GateView<I>> for Same {
    ghost left = { λ v. v };

    ghost right = { λ v. v };
}

impl<I> Join<GateView<I>> for Same {
    ghost use Rattle.fedi_turn.specs.declared.gate.GateView.TheVariants.{NoFacts};

    ghost both = { λ v w. v };

    ghost spent = { NoFacts };
}

pub type GateSeat<V> = Seat<Option<Content<V, <V as Grows>::Item>>, GateView<<V as Grows>::Item>>;

pub type GateTable<V> = Table<
    Option<Content<V, <V as Grows>::Item>>,
    GateView<<V as Grows>::Item>,
    Snapshot<Content<V, <V as Grows>::Item>>,
    Gate<V>,
    Global,
>;

pub type GateShared<V> = Shared<
    Option<Content<V, <V as Grows>::Item>>,
    GateView<<V as Grows>::Item>,
    Snapshot<Content<V, <V as Grows>::Item>>,
    Gate<V>,
>;

// Takes the value out if the word is this one.
fn try_take<V: Grows>(
    gate: &GateShared<V>,
    seat: &mut GateSeat<V>,
    word: u64,
) -> Option<Content<V, V::Item>>
    requires table { (seat.old.table_id ≡ gate.now.table_id) × IsGateSize gate.now.table_id }
    requires seat { seat.old.me ≡ outside (facts_of V.list V.base gate.now.key.value) }
    requires word { HasValue word }
    ensures table { seat.new.table_id ≡ seat.old.table_id }
    ensures out { IfSome result (IsHome V.list V.base (facts_of V.list V.base gate.now.key.value)) }
    ensures slot { IfSome result (λ _. seat.new.me ≡ (seat.old.me.0, (0, None) ∷ [])) }
    ensures none { IfNone result (seat.new.me ≡ seat.old.me) }
{
    if gate.compare_exchange::<TakeOut<V>>(seat, 0, word, OUT) != word {
        return None;
    }
    gate.exchange(seat, 0, None)
}

// Changes the word while the value is out.
fn change_word<V: Grows>(gate: &GateShared<V>, seat: &mut GateSeat<V>, old: u64, new: u64)
    requires table { (seat.old.table_id ≡ gate.now.table_id) × IsGateSize gate.now.table_id }
    requires seat { seat.old.me ≡ outside (facts_of V.list V.base gate.now.key.value) }
    requires old { LacksValue old }
    requires new { LacksValue new }
    ensures table { seat.new.table_id ≡ seat.old.table_id }
    ensures seat { seat.new.me ≡ seat.old.me }
{
    gate.compare_exchange::<Mark>(seat, 0, old, new);
}

// Looks for a while, until the value is there.
fn look<V: Grows>(gate: &GateShared<V>)
    requires { IsGateSize gate.now.table_id }
{
    for _ in 0..LOOKS {
        let word = gate.peek(0);
        if word == HOME || word == LEFT {
            return;
        }
        spin_loop();
    }
}

// Takes the value if it is there or comes within some looks, and is left to nobody.
fn take_first<V: Grows>(gate: &GateShared<V>, seat: &mut GateSeat<V>) -> Option<Content<V, V::Item>>
    requires table { (seat.old.table_id ≡ gate.now.table_id) × IsGateSize gate.now.table_id }
    requires seat { seat.old.me ≡ outside (facts_of V.list V.base gate.now.key.value) }
    ensures table { seat.new.table_id ≡ seat.old.table_id }
    ensures out { IfSome result (IsHome V.list V.base (facts_of V.list V.base gate.now.key.value)) }
    ensures slot { IfSome result (λ _. seat.new.me ≡ (seat.old.me.0, (0, None) ∷ [])) }
    ensures none { IfNone result (seat.new.me ≡ seat.old.me) }
{
    if let Some(content) = try_take(gate, seat, HOME) {
        return Some(content);
    }
    look(gate);
    try_take(gate, seat, HOME)
}

// Waits for the value at the head of the line, asleep if it does not come soon.
fn wait_at_head<V: Grows, R: Wait>(
    rt: &R,
    gate: &GateShared<V>,
    seat: &mut GateSeat<V>,
) -> Content<V, V::Item>
    requires table { (seat.old.table_id ≡ gate.now.table_id) × IsGateSize gate.now.table_id }
    requires seat { seat.old.me ≡ outside (facts_of V.list V.base gate.now.key.value) }
    ensures table { seat.new.table_id ≡ seat.old.table_id }
    ensures home { IsHome V.list V.base (facts_of V.list V.base gate.now.key.value) result }
    ensures slot { seat.new.me ≡ inside (facts_of V.list V.base gate.now.key.value) }
{
    let mut passes_left = MOST_PASSES;
    for _ in rt.forever() {
        if let Some(content) = try_take(gate, seat, LEFT) {
            return content;
        }
        if let Some(content) = take_first(gate, seat) {
            return content;
        }
        let word = if passes_left > 0 { AWAITED } else { CLAIMED };
        change_word(gate, seat, OUT, word);
        change_word(gate, seat, AWAITED, word);
        gate.park(rt, 0, word as u32);
        passes_left = passes_left.saturating_sub(1);
    }
    unreachable!()
}

/// Waits for the value. A short turn takes it at once if it is there. Any other waits until it is
/// the first in the line, and then for the value.
pub(crate) fn wait_turn<V: Grows, R: Wait>(
    rt: &R,
    gate: &GateShared<V>,
    line: &Line,
    seat: &mut GateSeat<V>,
    span: Span,
) -> Content<V, V::Item>
    requires table { (seat.old.table_id ≡ gate.now.table_id) × IsGateSize gate.now.table_id }
    requires seat { seat.old.me ≡ outside (facts_of V.list V.base gate.now.key.value) }
    ensures table { seat.new.table_id ≡ seat.old.table_id }
    ensures home { IsHome V.list V.base (facts_of V.list V.base gate.now.key.value) result }
    ensures slot { seat.new.me ≡ inside (facts_of V.list V.base gate.now.key.value) }
{
    if span == Span::Short {
        if let Some(content) = take_first(gate, seat) {
            return content;
        }
    }
    line.enter(rt);
    let content = wait_at_head(rt, gate, seat);
    line.leave(rt);
    content
}

/// Puts the value back, and wakes the first in the line if it may be parked.
pub(crate) fn put_value<V: Grows>(
    gate: &GateShared<V>,
    seat: &mut GateSeat<V>,
    content: Content<V, V::Item>,
)
    requires table { (seat.old.table_id ≡ gate.now.table_id) × IsGateSize gate.now.table_id }
    requires slot { seat.old.me ≡ inside (facts_of V.list V.base gate.now.key.value) }
    requires home { IsHome V.list V.base (facts_of V.list V.base gate.now.key.value) content }
    ensures table { seat.new.table_id ≡ seat.old.table_id }
    ensures seat { seat.new.me ≡ (seat.old.me.0, []) }
{
    gate.exchange(seat, 0, Some(content));
    let word = if gate.peek(0) == CLAIMED { LEFT } else { HOME };
    if gate.swap::<PutBack>(seat, 0, word) != OUT {
        gate.wake_one(0);
    }
}

pub(crate) fn another_seat<V: Grows>(gate: &GateShared<V>, seat: &mut GateSeat<V>) -> GateSeat<V>
    requires table { (seat.old.table_id ≡ gate.now.table_id) × IsGateSize gate.now.table_id }
    requires seat { seat.old.me ≡ outside (facts_of V.list V.base gate.now.key.value) }
    ensures table { seat.new.table_id ≡ seat.old.table_id }
    ensures other { result.table_id ≡ seat.old.table_id }
    ensures seat { (seat.new.me ≡ seat.old.me) × (result.me ≡ seat.old.me) }
{
    gate.split_seat::<Same>(seat)
}

pub(crate) fn spend_seat<V: Grows>(gate: &GateShared<V>, seat: &mut GateSeat<V>, other: GateSeat<V>)
    requires table { (seat.old.table_id ≡ gate.now.table_id) × IsGateSize gate.now.table_id }
    requires other { other.table_id ≡ gate.now.table_id }
    requires seat { other.me ≡ outside (facts_of V.list V.base gate.now.key.value) }
    ensures table { seat.new.table_id ≡ seat.old.table_id }
    ensures same { seat.new.me ≡ seat.old.me }
{
    gate.join_seat::<Same>(seat, other);
}
