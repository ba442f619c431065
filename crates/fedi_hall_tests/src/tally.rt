//! A value to take turns with: a list of marks, each the number of the pass that added it.
ghost use Rattle.std.specs.Prelude.{◌≡◌, [], ◌∷◌, Some};
ghost use Rattle.fedi_turn.specs.Turn.{IsIdle, number_of};
ghost use Rattle.fedi_hall_tests.specs.Marks.{marks_after};

use fedi_turn::{Grows, Pass, Span, TurnLock};
use std::alloc::Global;
use std::sync::{Arc, Wait};

/// Marks, and a `token` shared with others, whose count of owners says whether the value was
/// dropped.
#[derive(Drop)]
pub struct Tally {
    pub marks: Vec<u64>,
    pub label: u64,
    pub token: Arc<u8, Global>,
}

impl Grows for Tally {
    type Item = u64;

    ghost list = { λ t. t.marks.items };

    ghost base = { λ t. t.label ∷ [] };

    ghost name = { λ n. Some n };

    fn front(&self) -> u64 {
        self.marks.len() as u64
    }
}

impl Tally {
    /// Adds a mark of the pass `by`, and says whether there was memory.
    pub fn add(&mut self, by: u64) -> bool
        ensures marks { self.new.marks.items ≡ marks_after result by self.old.marks.items }
        ensures label { self.new.label ≡ self.old.label }
    {
        self.marks.push(by).is_ok()
    }

    /// How many marks of the pass `by` there are.
    pub fn count(&self, by: u64) -> u64 {
        self.marks.iter().filter(|n| **n == by).count() as u64
    }
}

/// A turn in which the pass adds its mark, if there is memory.
pub fn turn<R: Wait>(rt: &R, lock: &TurnLock<Tally>, pass: &mut Pass<u64>)
    requires { IsIdle ⟦<Tally as Grows>⟧ lock.now pass.old }
    ensures idle { IsIdle ⟦<Tally as Grows>⟧ lock.now pass.new }
    ensures same { number_of pass.new ≡ number_of pass.old }
{
    let mut held = lock.take(rt, pass, Span::Short);
    held.value.add(pass.number());
    lock.give(pass, held);
}
