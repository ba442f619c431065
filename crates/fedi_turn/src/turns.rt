//! A pass takes the value and gives it back.
ghost use Rattle.std.specs.Prelude.{◌≡◌, length};
ghost use Rattle.fedi_turn.specs.Record.{Continues, GrowsBy};
ghost use Rattle.fedi_turn.specs.Turn.{base_of, number_of, seen_of, turn_list, IsIdle, IsTurn};

use crate::gate::{Content, put_value, wait_turn};
use crate::grows::Grows;
use crate::lock::{Held, Pass, Span, TurnLock};
use crate::record::{append_new, carry_reader, look_around, return_number};
use atomic_table::Badge;
use std::mem;
use std::sync::Wait;

impl<I> Pass<I> {
    /// The length of the list that an idle pass has seen; 0 during a turn.
    pub fn seen(&self) -> u64
        ensures { result ≡ length (seen_of self.now) }
    {
        self.seen
    }

    /// The number of the pass: its index, from 0, among those that `TurnLock::new` returned.
    pub fn number(&self) -> u64
        ensures { result ≡ number_of self.now }
    {
        self.number
    }
}

impl<V: Grows> TurnLock<V> {
    /// Waits for the turn of an idle pass of this lock, and returns the value. Its list begins with
    /// all that the pass has seen, and each item after that is another's. Takes no memory.
    ///
    /// A caller who does not find the value looks for it a hundred times, then waits in the line,
    /// and at its head looks again and sleeps until a `give` wakes it. Short turns may come before
    /// it wakes, and take the value again. After eight times in vain the value is left to it. A
    /// long turn does not come before it. If the caller before does not give the value back, the
    /// call does not return.
    pub fn take<R: Wait>(&self, rt: &R, pass: &mut Pass<V::Item>, span: Span) -> Held<V, V::Item>
        requires { IsIdle V.Grows self.now pass.old }
        ensures turn { IsTurn V.Grows self.now pass.new result }
        ensures same { number_of pass.new ≡ number_of pass.old }
        ensures value { V.list result.value ≡ turn_list result }
        ensures base { V.base result.value ≡ base_of V.Grows self.now }
        ensures list { Continues V.name (number_of pass.old) (seen_of pass.old) (turn_list result) }
    {
        let mut gate = mem::replace(&mut pass.gate, Badge::blank()).into_seat();
        let Content { value, writer } = wait_turn(
            rt,
            &self.gate.shared,
            &self.line,
            &mut gate,
            span,
        );
        let reader = mem::replace(&mut pass.reader, Badge::blank());
        pass.seen = 0;
        let mut writer = writer.into_seat();
        carry_reader(&self.log.shared, &mut writer, reader.into_seat());
        look_around(&self.log.shared, &mut writer);
        let front = value.front();
        Held {
            value,
            gate,
            writer: writer.into_badge(),
            front,
        }
    }

    /// Ends the turn of the pass that took the value. Its list may only have grown, by items that
    /// name the pass; its base has to be as it was. The pass is then idle and has seen that list.
    /// Takes no memory.
    ///
    /// It wakes the caller that sleeps at the head of the line, and makes no system call if none can
    /// sleep: after turns without waiting, none does.
    pub fn give(&self, pass: &mut Pass<V::Item>, held: Held<V, V::Item>)
        requires turn { IsTurn V.Grows self.now pass.old held }
        requires base { V.base held.value ≡ base_of V.Grows self.now }
        requires grows { GrowsBy V.name (number_of pass.old) (turn_list held) (V.list held.value) }
        ensures idle { IsIdle V.Grows self.now pass.new }
        ensures same { number_of pass.new ≡ number_of pass.old }
        ensures seen { seen_of pass.new ≡ V.list held.value }
    {
        let Held {
            value,
            mut gate,
            writer,
            front,
        } = held;
        let mut writer = writer.into_seat();
        let seen = value.front();
        if front < seen {
            append_new(&self.log.shared, &mut writer, &value, seen - front);
        }
        let reader = return_number(&self.log.shared, &mut writer);
        pass.reader = reader.into_badge();
        pass.seen = seen;
        let content = Content {
            value,
            writer: writer.into_badge(),
        };
        put_value(&self.gate.shared, &mut gate, content);
        pass.gate = gate.into_badge();
    }
}
