//! How a lock is closed: the value comes back once all its passes are there.
ghost use Rattle.std.specs.Prelude.{◌≡◌, ◌<◌, ◌↔◌, All, map, vec_len, IfOk, IfErr, IsErr};
ghost use Rattle.fedi_turn.specs.Record.{take_in, take_in_all, Becomes, MayCarry};
ghost use Rattle.fedi_turn.specs.Turn.{base_of, seats_of, view_of, ContinuesEach, IsIdle};
ghost use Rattle.fedi_turn.specs.Turn.{NamesOneOf};

use crate::gate::{Content, GateSeat, spend_seat, wait_turn};
use crate::grows::Grows;
use crate::lock::{Pass, Span, TurnLock};
use crate::record::{RecordSeat, carry_reader, look_around};
use std::sync::Wait;

// The writer takes in the reader of a pass.
fn carry_pass<V: Grows>(
    lock: &TurnLock<V>,
    seat: &mut GateSeat<V>,
    writer: &mut RecordSeat<V>,
    pass: Pass<V::Item>,
)
    requires gate { seat.old.table_id ≡ lock.now.gate.shared.table_id }
    requires table { writer.old.table_id ≡ lock.now.log.shared.table_id }
    requires writer { MayCarry writer.old.me }
    requires pass { IsIdle V.Grows lock.now pass }
    ensures gate { (seat.new.table_id ≡ seat.old.table_id) × (seat.new.me ≡ seat.old.me) }
    ensures table { writer.new.table_id ≡ writer.old.table_id }
    ensures writer { Becomes (λ w. take_in w (view_of pass)) writer.old.me writer.new.me }
{
    let Pass {
        gate,
        reader,
        number: _,
        seen: _,
    } = pass;
    spend_seat(&lock.gate.shared, seat, gate.into_seat());
    carry_reader(&lock.log.shared, writer, reader.into_seat());
}

fn carry_all<V: Grows>(
    lock: &TurnLock<V>,
    seat: &mut GateSeat<V>,
    writer: &mut RecordSeat<V>,
    mut passes: Vec<Pass<V::Item>>,
)
    requires gate { seat.old.table_id ≡ lock.now.gate.shared.table_id }
    requires table { writer.old.table_id ≡ lock.now.log.shared.table_id }
    requires writer { MayCarry writer.old.me }
    requires passes { All (IsIdle V.Grows lock.now) passes.items }
    ensures table { writer.new.table_id ≡ writer.old.table_id }
    ensures writer { Becomes (take_in_all (map view_of passes.items)) writer.old.me writer.new.me }
{
    while let Some(pass) = passes.pop() {
        carry_pass(lock, seat, writer, pass);
    }
}

impl<V: Grows> TurnLock<V> {
    /// Closes the lock and hands the value back, given its passes, each idle. It waits for the
    /// value as `take` does. The value's list begins with all that each pass has seen, and each
    /// item past the list of `new` names one of them. Takes no memory.
    ///
    /// If there are fewer passes than `new` gave, the lock and the passes come back as they were.
    pub fn close<R: Wait>(
        self,
        rt: &R,
        mut passes: Vec<Pass<V::Item>>,
    ) -> Result<V, (TurnLock<V>, Vec<Pass<V::Item>>)>
        requires { All (IsIdle V.Grows self) passes.items }
        ensures refused { IsErr result ↔ (vec_len passes < seats_of self) }
        ensures back { IfErr result (λ r. (r.0 ≡ self) × (r.1 ≡ passes)) }
        ensures base { IfOk result (λ v. V.base v ≡ base_of V.Grows self) }
        ensures later { IfOk result (λ v. ContinuesEach V.Grows passes.items (V.list v)) }
        ensures named { IfOk result (λ v. NamesOneOf V.Grows self passes.items (V.list v)) }
    {
        if (passes.len() as u64) < self.seats {
            return Err((self, passes));
        }
        let Some(first) = passes.pop() else {
            unreachable!()
        };
        let Pass {
            gate,
            reader,
            number: _,
            seen: _,
        } = first;
        let mut seat = gate.into_seat();
        let Content { value, writer } = wait_turn(
            rt,
            &self.gate.shared,
            &self.line,
            &mut seat,
            Span::Short,
        );
        let mut writer = writer.into_seat();
        carry_reader(&self.log.shared, &mut writer, reader.into_seat());
        carry_all(&self, &mut seat, &mut writer, passes);
        look_around(&self.log.shared, &mut writer);
        Ok(value)
    }
}
