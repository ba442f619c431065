//! The record of what each pass has seen: a table with one word and no slot, which is there for the
//! proof.
ghost use Rattle.std.specs.Prelude.{◌≡◌, List, []};
ghost use Rattle.fedi_turn.specs.declared.record.View.TheVariants.{Writer};
ghost use Rattle.fedi_turn.specs.declared.record.WriterView.{WriterView};
ghost use Rattle.fedi_turn.specs.Record.{add_items, carry_both, draw_left, draw_right, return_left};
ghost use Rattle.fedi_turn.specs.Record.{return_right, set_list, Becomes, CarriesOne, IsOrdered};
ghost use Rattle.fedi_turn.specs.Record.{IsWriter, MayAppend, MayGrow, MayJoin};

use crate::grows::Grows;
use atomic_table::{Join, Play, Seat, Shared, Split, Table, TableRule};
use std::alloc::Global;
use std::collections::LinkedList;
use std::marker::{Brand, PhantomData};
use std::snapshot::Snapshot;

/// The number of a pass, and the list that it has seen. No value of it is made.
pub struct ReaderView<I> {
    pub number: u64,
    pub list: LinkedList<I>,
}

/// What the one writer knows: the list, the list of a new lock, the count of numbers given out,
/// what it carries, and the list at the start of the turn. No value of it is made.
pub struct WriterView<I> {
    pub list: LinkedList<I>,
    pub start: LinkedList<I>,
    pub count: u64,
    pub carried: LinkedList<ReaderView<I>>,
    pub turn: LinkedList<I>,
}

/// What a seat of the record knows. No value of it is made.
pub enum View<I> {
    Nothing,
    Reader(ReaderView<I>),
    Writer(WriterView<I>),
}

/// The rule of the record.
pub struct Record<V> {
    marker: PhantomData<V>,
}

impl<V: Grows> TableRule<(), View<V::Item>, Snapshot<V>> for Record<V> {
    ghost use Rattle.fedi_turn.specs.Record.{IsRecord, new_writer};

    ghost holds = { λ _ s. IsRecord V.name s.views };

    ghost first = { λ key. new_writer (V.list key.value) 0 };
}

pub type RecordTable<V> = Table<(), View<<V as Grows>::Item>, Snapshot<V>, Record<V>, Global>;

pub type RecordShared<V> = Shared<(), View<<V as Grows>::Item>, Snapshot<V>, Record<V>>;

pub type RecordSeat<V> = Seat<(), View<<V as Grows>::Item>>;

/// The writer draws the next number for a new reader.
pub struct Draw;

impl<I> Split<View<I>> for Draw {
    ghost use Rattle.fedi_turn.specs.Record.{draw_left, draw_right};

    ghost left = { draw_left };

    ghost right = { draw_right };
}

/// The writer takes in a reader.
pub struct Carry;

impl<I> Join<View<I>> for Carry {
    ghost use Rattle.fedi_turn.specs.Record.{carry_both};
    ghost use Rattle.fedi_turn.specs.declared.record.View.TheVariants.{Nothing};

    ghost both = { carry_both };

    ghost spent = { Nothing };
}

/// The writer hands its one number back to a new reader.
pub struct HandBack;

impl<I> Split<View<I>> for HandBack {
    ghost use Rattle.fedi_turn.specs.Record.{return_left, return_right};

    ghost left = { return_left };

    ghost right = { return_right };
}

/// The writer learns what the rule says of its view.
pub struct Look<V> {
    marker: PhantomData<V>,
}

impl<V: Grows> Play<(), View<V::Item>> for Look<V> {
    ghost use Rattle.fedi_turn.specs.Record.{Looks};

    ghost then = { Looks V.name };
}

/// The items of one append, for the proof alone. A call at `Brand` picks them.
pub trait Items<I> {
    ghost items: { List I };
}

impl<I> Items<I> for Brand {
    ghost items = { [] };
}

/// The writer's list grows by these items.
pub struct Append<W> {
    marker: PhantomData<W>,
}

impl<I, W: Items<I>> Play<(), View<I>> for Append<W> {
    ghost use Rattle.fedi_turn.specs.Record.{Appends};

    ghost then = { Appends W.items };
}

pub(crate) fn draw_number<V: Grows>(
    log: &RecordShared<V>,
    writer: &mut RecordSeat<V>,
) -> RecordSeat<V>
    requires table { (writer.old.table_id ≡ log.now.table_id) × (log.now.table_id.words ≡ 1) }
    requires writer { IsWriter writer.old.me }
    ensures table { writer.new.table_id ≡ writer.old.table_id }
    ensures other { result.table_id ≡ writer.old.table_id }
    ensures writer { writer.new.me ≡ (draw_left writer.old.me.0, []) }
    ensures reader { result.me ≡ (draw_right writer.old.me.0, []) }
{
    log.split_seat::<Draw>(writer)
}

pub(crate) fn carry_reader<V: Grows>(
    log: &RecordShared<V>,
    writer: &mut RecordSeat<V>,
    reader: RecordSeat<V>,
)
    requires table { (writer.old.table_id ≡ log.now.table_id) × (log.now.table_id.words ≡ 1) }
    requires other { reader.table_id ≡ log.now.table_id }
    requires views { MayJoin writer.old.me reader.me }
    ensures table { writer.new.table_id ≡ writer.old.table_id }
    ensures writer { writer.new.me ≡ (carry_both writer.old.me.0 reader.me.0, []) }
{
    log.join_seat::<Carry>(writer, reader);
}

pub(crate) fn look_around<V: Grows>(log: &RecordShared<V>, writer: &mut RecordSeat<V>)
    requires table { (writer.old.table_id ≡ log.now.table_id) × (log.now.table_id.words ≡ 1) }
    requires writer { IsWriter writer.old.me }
    ensures table { writer.new.table_id ≡ writer.old.table_id }
    ensures writer { writer.new.me ≡ writer.old.me }
    ensures told { (w : WriterView V.Item) → writer.old.me.0 ≡ Writer w → IsOrdered V.name w }
{
    log.load::<Look<V>>(writer, 0);
}

// The items are those of the call's `W`, which it picks from the writer and the value.
fn append_items<V: Grows, W: Items<V::Item>>(
    log: &RecordShared<V>,
    writer: &mut RecordSeat<V>,
    _value: &V,
    added: u64,
)
    requires table { (writer.old.table_id ≡ log.now.table_id) × (log.now.table_id.words ≡ 1) }
    requires writer { MayAppend V.name W.items writer.old.me }
    ensures table { writer.new.table_id ≡ writer.old.table_id }
    ensures writer { Becomes (λ w. add_items w W.items) writer.old.me writer.new.me }
{
    log.fetch_add::<Append<W>>(writer, 0, added);
}

pub(crate) fn append_new<V: Grows>(
    log: &RecordShared<V>,
    writer: &mut RecordSeat<V>,
    value: &V,
    added: u64,
)
    requires table { (writer.old.table_id ≡ log.now.table_id) × (log.now.table_id.words ≡ 1) }
    requires writer { MayGrow V.name (V.list value.now) writer.old.me }
    ensures table { writer.new.table_id ≡ writer.old.table_id }
    ensures writer { Becomes (set_list (V.list value.now)) writer.old.me writer.new.me }
{
    append_items::<V, Brand>(log, writer, value, added);
}

pub(crate) fn return_number<V: Grows>(
    log: &RecordShared<V>,
    writer: &mut RecordSeat<V>,
) -> RecordSeat<V>
    requires table { (writer.old.table_id ≡ log.now.table_id) × (log.now.table_id.words ≡ 1) }
    requires writer { CarriesOne writer.old.me }
    ensures table { writer.new.table_id ≡ writer.old.table_id }
    ensures other { result.table_id ≡ writer.old.table_id }
    ensures writer { writer.new.me ≡ (return_left writer.old.me.0, []) }
    ensures reader { result.me ≡ (return_right writer.old.me.0, []) }
{
    log.split_seat::<HandBack>(writer)
}
