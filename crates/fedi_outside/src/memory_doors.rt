//! A door in memory.
ghost use Rattle.std.specs.Prelude.{◌≡◌, All, IfOk, None, Some, [], false, map};
ghost use Rattle.fedi_outside.specs.MemoryDoors.{IsNewTurn, out_of, row_of};

use crate::{Door, MemoryLine, Rest, Turn};
use std::alloc::{AllocError, Global};
use std::marker::Model;
use std::snapshot::Snapshot;
use std::vec::IntoIter;

/// A row of a door in memory.
#[derive(Drop)]
pub enum MemoryRow {
    /// A line that came back, and the line as it came.
    Spoken {
        came: Snapshot<MemoryLine>,
        line: MemoryLine,
    },
    /// What was done while no connection waited.
    Rested(Rest),
}

/// A door in memory that gives these turns, and is closed after them. It reports its rows, and
/// counts the turns that failed.
#[derive(Drop)]
pub struct MemoryDoor {
    turns: IntoIter<Turn<MemoryLine>>,
    out: Option<Snapshot<MemoryLine>>,
    idle: bool,
    closed: bool,
    rows: Vec<MemoryRow>,
    faults: u64,
}

impl Model for MemoryDoor {
    ghost use Rattle.std.specs.Prelude.{◌≤◌, ◌+◌, All, length, option_map, vec_capacity};
    ghost use Rattle.std.specs.Vec.Iter.{into_iter_items};
    ghost use Rattle.fedi_outside.specs.MemoryDoors.{IsNewTurn, MemoryDoorState, owed};

    ghost Value = { MemoryDoorState };

    ghost view = { λ d. record {
      turns = into_iter_items d.turns;
      out = option_map (λ s. s.value) d.out;
      idle = d.idle;
      closed = d.closed;
      rows = d.rows.items;
      faults = d.faults;
    } };

    // Each line to come is new, and there is room for one row for each turn to come and for the
    // open turn.
    ghost invariant = { λ d. All IsNewTurn (into_iter_items d.turns)
        × (length d.rows.items + owed d.out d.idle + length (into_iter_items d.turns)
        ≤ vec_capacity d.rows) };
}

impl MemoryDoor {
    /// A door that gives these turns, in order, and is closed after them. The error is out of
    /// memory.
    pub fn new(alloc: Global, turns: Vec<Turn<MemoryLine>>) -> Result<Self, AllocError>
        requires { All IsNewTurn turns.items }
        ensures { IfOk result (λ door. door ≡ record {
          turns = turns.items;
          out = None;
          idle = false;
          closed = false;
          rows = [];
          faults = 0;
        }) }
    {
        let rows = Vec::with_capacity(alloc, turns.len())?;
        Ok(MemoryDoor {
            turns: turns.into_iter(),
            out: None,
            idle: false,
            closed: false,
            rows,
            faults: 0,
        })
    }

    /// The rows, in order.
    pub fn rows(&self) -> &[MemoryRow]
        ensures { result.now ≡ self.now.rows }
    {
        &self.rows
    }
}

impl Door for MemoryDoor {
    type L = MemoryLine;

    ghost out = { out_of };

    ghost idle = { λ d. d.idle };

    ghost served = { λ d. Some (map row_of d.rows) };

    ghost closed = { λ d. d.closed };

    ghost faults = { λ d. d.faults };

    fn next(&mut self) -> Turn<MemoryLine> {
        self.closed = false;
        match self.turns.next() {
            Some(Turn::Line(line)) => {
                self.out = Some(Snapshot::of(&line));
                Turn::Line(line)
            }
            Some(Turn::Idle) => {
                self.idle = true;
                Turn::Idle
            }
            Some(Turn::Failed) => {
                self.faults = self.faults.saturating_add(1);
                Turn::Failed
            }
            Some(Turn::Closed) | None => {
                self.closed = true;
                Turn::Closed
            }
        }
    }

    fn back(&mut self, line: MemoryLine) {
        let Some(came) = self.out.take() else {
            unreachable!()
        };
        self.rows.push_reserved(MemoryRow::Spoken { came, line });
    }

    fn rested(&mut self, rest: Rest) {
        self.idle = false;
        self.rows.push_reserved(MemoryRow::Rested(rest));
    }
}
