//! How a lock is made with its passes. The value moves only once all memory is there, and each
//! failure hands it back.
ghost use Rattle.std.specs.Prelude.{◌≡◌, ◌<◌, [], ◌∷◌, length, vec_len, IfOk, IfErr, OnOk};
ghost use Rattle.fedi_turn.specs.declared.gate.GateView.TheVariants.{Facts};
ghost use Rattle.fedi_turn.specs.Record.{new_writer};
ghost use Rattle.fedi_turn.specs.Gate.{facts_of, list_in, outside, IsGateSize, IsHome};
ghost use Rattle.fedi_turn.specs.Turn.{base_of, seats_of, start_of, AreNew, AreReaders, AreSame};
ghost use Rattle.fedi_turn.specs.Turn.{Each, HasGate, IsSamePass};

use crate::gate::{Content, GateSeat, GateShared, GateTable, HOME, another_seat};
use crate::grows::Grows;
use crate::line::Line;
use crate::lock::{Pass, TurnLock};
use crate::record::{RecordSeat, RecordShared, RecordTable, View, draw_number};
use atomic_table::{Badge, Refused, Seat, Table};
use std::alloc::{AllocError, Global};
use std::snapshot::Snapshot;

// It has no seat of the gate yet.
fn new_pass<I>(reader: Seat<(), View<I>>, number: u64, seen: u64) -> Pass<I>
    requires idle { reader.me.1 ≡ [] }
    requires seen { seen ≡ length (list_in (reader.me.0 ∷ [])) }
    ensures table { result.reader.table_id ≡ reader.table_id }
    ensures reader { result.reader.views ≡ reader.me.0 ∷ [] }
    ensures number { result.number ≡ number }
{
    Pass {
        gate: Badge::blank(),
        reader: reader.into_badge(),
        number,
        seen,
    }
}

fn draw_passes<V: Grows>(
    alloc: Global,
    log: &RecordShared<V>,
    writer: &mut RecordSeat<V>,
    value: &V,
    seats: u64,
) -> Result<Vec<Pass<V::Item>>, AllocError>
    requires table { (writer.old.table_id ≡ log.now.table_id) × (log.now.table_id.words ≡ 1) }
    requires writer { writer.old.me ≡ (new_writer (V.list value.now) 0, []) }
    ensures table { writer.new.table_id ≡ writer.old.table_id }
    ensures writer { OnOk result (writer.new.me ≡ (new_writer (V.list value.now) seats, [])) }
    ensures len { IfOk result (λ ps. vec_len ps ≡ seats) }
    ensures each { IfOk result (λ ps. AreReaders log.now.table_id (V.list value.now) ps.items) }
{
    let seen = value.front();
    let mut passes = Vec::new(alloc);
    for number in 0..seats {
        let reader = draw_number(log, writer);
        passes.push(new_pass(reader, number, seen))?;
    }
    Ok(passes)
}

fn open_record<V: Grows>(
    alloc: Global,
    value: &V,
    seats: u64,
) -> Result<(RecordTable<V>, Vec<Pass<V::Item>>, RecordSeat<V>), AllocError>
    ensures size { IfOk result (λ r. r.0.shared.table_id.words ≡ 1) }
    ensures table { IfOk result (λ r. r.2.table_id ≡ r.0.shared.table_id) }
    ensures writer { IfOk result (λ r. r.2.me ≡ (new_writer (V.list value.now) seats, [])) }
    ensures len { IfOk result (λ r. vec_len r.1 ≡ seats) }
    ensures each { IfOk result (λ r. AreReaders r.0.shared.table_id (V.list value.now) r.1.items) }
{
    let (log, mut writer) = Table::of_words(alloc, &[value.front()], &Snapshot::of(value))?;
    let passes = draw_passes(alloc, &log.shared, &mut writer, value, seats)?;
    Ok((log, passes, writer))
}

fn open_gate<V: Grows>(
    alloc: Global,
    content: Content<V, V::Item>,
) -> Result<(GateTable<V>, GateSeat<V>), Content<V, V::Item>>
    requires { IsHome V.list V.base (facts_of V.list V.base content) content }
    ensures size { IfOk result (λ t. IsGateSize t.0.shared.table_id) }
    ensures table { IfOk result (λ t. t.1.table_id ≡ t.0.shared.table_id) }
    ensures key { IfOk result (λ t. t.0.shared.key.value ≡ content) }
    ensures seat { IfOk result (λ t. t.1.me ≡ outside (facts_of V.list V.base content)) }
    ensures err { IfErr result (λ k. k ≡ content) }
{
    let key = Snapshot::of(&content);
    let mut slots = Vec::new(alloc);
    if let Err(failed) = slots.push(Some(content)) {
        let Some(content) = failed.value else {
            unreachable!()
        };
        return Err(content);
    }
    match Table::new(alloc, &[HOME], slots, &key) {
        Ok(pair) => Ok(pair),
        Err(Refused { mut slots }) => {
            let Some(Some(content)) = slots.pop() else {
                unreachable!()
            };
            Err(content)
        }
    }
}

fn admit<V: Grows>(gate: &GateShared<V>, seat: &mut GateSeat<V>, pass: &mut Pass<V::Item>)
    requires table { (seat.old.table_id ≡ gate.now.table_id) × IsGateSize gate.now.table_id }
    requires seat { seat.old.me ≡ outside (facts_of V.list V.base gate.now.key.value) }
    ensures table { seat.new.table_id ≡ seat.old.table_id }
    ensures seat { seat.new.me ≡ seat.old.me }
    ensures gate { HasGate seat.old.table_id seat.old.me.0 pass.new }
    ensures same { IsSamePass pass.old pass.new }
{
    pass.gate = another_seat(gate, seat).into_badge();
}

// Each pass gets a seat of the gate.
fn admit_all<V: Grows>(gate: &GateShared<V>, mut seat: GateSeat<V>, passes: &mut Vec<Pass<V::Item>>)
    requires table { (seat.table_id ≡ gate.now.table_id) × IsGateSize gate.now.table_id }
    requires seat { seat.me ≡ outside (facts_of V.list V.base gate.now.key.value) }
    ensures len { vec_len passes.new ≡ vec_len passes.old }
    ensures gate { Each (λ _ p. HasGate seat.table_id seat.me.0 p) passes.new.items }
    ensures same { AreSame passes.old.items passes.new.items }
{
    for i in 0..passes.len() {
        let pass = &mut passes[i];
        admit(gate, &mut seat, pass);
    }
}

impl<V: Grows> TurnLock<V> {
    /// A lock around the value, and this many idle passes, numbered from 0. Each has seen the
    /// value's list. There is at least one pass. The error is out of memory: the value comes back.
    pub fn new(alloc: Global, value: V, seats: u64) -> Result<(TurnLock<V>, Vec<Pass<V::Item>>), V>
        requires { 0 < seats }
        ensures base { IfOk result (λ r. base_of V.Grows r.0 ≡ V.base value) }
        ensures start { IfOk result (λ r. start_of V.Grows r.0 ≡ V.list value) }
        ensures seats { IfOk result (λ r. (seats_of r.0 ≡ seats) × (vec_len r.1 ≡ seats)) }
        ensures passes { IfOk result (λ r. AreNew V.Grows r.0 r.1.items) }
        ensures err { IfErr result (λ v. v ≡ value) }
    {
        let Ok((log, mut passes, writer)) = open_record(alloc, &value, seats) else {
            return Err(value);
        };
        let content = Content {
            value,
            writer: writer.into_badge(),
        };
        match open_gate(alloc, content) {
            Ok((gate, seat)) => {
                admit_all(&gate.shared, seat, &mut passes);
                let lock = TurnLock {
                    gate,
                    line: Line::new(),
                    log,
                    seats,
                };
                Ok((lock, passes))
            }
            Err(content) => {
                let Content { value, writer: _ } = content;
                Err(value)
            }
        }
    }
}
