//! Lines, links and doors in memory that wait for each other.
ghost use Rattle.std.specs.Prelude.{◌≡◌, None, false};
ghost use Rattle.std.proofs.Common.{refl};
ghost use Rattle.fedi_adapters.specs.Untold.{untold_if};

use fedi_outside::{
    Door, Failed, Line, Link, MemoryLine, MemoryLink, MemorySink, MemorySource, Rest, Sink, Source,
    Turn,
};
use std::sync::{Mutex, Wait};
use std::thread;
use std::time::{Clock, Duration};

/// How often a waiting thread looks at a gate before it fails.
const TURNS: u32 = 1_000_000;

/// How many microseconds it sleeps between two looks, so that the others get their turns.
const PAUSE: u64 = 10;

/// A stage that only grows, for which some wait until others have reached it.
#[derive(Drop)]
pub struct Gate {
    stage: Mutex<u8>,
}

/// The stage at which a line that waits was answered, and the stage that opens the gate.
const ANSWERED: u8 = 1;

const OPEN: u8 = 2;

impl Gate {
    /// A gate that is closed.
    pub fn new() -> Self {
        Gate {
            stage: Mutex::new(0),
        }
    }

    fn reach<R: Wait>(&self, rt: &R, stage: u8) {
        let mut reached = self.stage.lock(rt);
        if *reached < stage {
            *reached = stage;
        }
    }

    fn has_reached<R: Wait>(&self, rt: &R, stage: u8) -> bool {
        let reached = self.stage.lock(rt);
        stage <= *reached
    }

    // Whether the stage is reached in time.
    fn wait<R: Wait + Clock>(&self, rt: &R, stage: u8) -> bool {
        for _ in 0..TURNS {
            if self.has_reached(rt, stage) {
                return true;
            }
            thread::sleep(rt, Duration::from_micros(PAUSE));
        }
        false
    }
}

/// What a line or a link has to do with the gate.
#[derive(Clone, Copy, PartialEq, Eq)]
pub enum Part {
    /// Nothing.
    Free,
    /// Each read except the first, or each exchange, waits until it is open.
    Waits,
    /// Each write or exchange opens it. A line first waits until a waiting line was answered.
    Opens,
}

// ---- lines

/// A line in memory. It reports neither what is to be read nor what was sent; its sink has that.
#[derive(Drop)]
pub struct HeldLine<'a, R> {
    rt: &'a R,
    gate: &'a Gate,
    part: Part,
    has_read: bool,
    source: MemorySource,
    sink: MemorySink,
    read_faults: u64,
    write_faults: u64,
}

impl<R: Wait + Clock> Source for HeldLine<'_, R> {
    ghost left = { λ _. None };

    ghost read_faults = { λ line. line.read_faults };

    ghost beside_source = { λ line. record { 0 = None; 1 = line.write_faults } };

    fn read(&mut self, into: &mut [u8]) -> Result<usize, Failed> {
        let goes_on = match self.part {
            Part::Waits if self.has_read => self.gate.wait(self.rt, OPEN),
            Part::Opens => self.gate.wait(self.rt, ANSWERED),
            _ => true,
        };
        self.has_read = true;
        if goes_on {
            if let Ok(count) = self.source.read(into) {
                return Ok(count);
            }
        }
        self.read_faults = self.read_faults.saturating_add(1);
        Err(Failed)
    }
}

impl<R: Wait + Clock> Sink for HeldLine<'_, R> {
    ghost sent = { λ _. None };

    ghost write_faults = { λ line. line.write_faults };

    ghost beside_sink = { λ line. record { 0 = None; 1 = line.read_faults } };

    fn write(&mut self, from: &[u8]) -> Result<usize, Failed> {
        let count = match self.sink.write(from) {
            Ok(count) => count,
            Err(Failed) => {
                self.write_faults = self.write_faults.saturating_add(1);
                return Err(Failed);
            }
        };
        match self.part {
            Part::Free => {}
            Part::Waits => self.gate.reach(self.rt, ANSWERED),
            Part::Opens => self.gate.reach(self.rt, OPEN),
        }
        Ok(count)
    }
}

impl<R: Wait + Clock> Line for HeldLine<'_, R> {
    ghost reads_beside = { λ _. refl };

    ghost writes_beside = { λ _. refl };
}

/// A door that gives one line, and is closed after it.
#[derive(Drop)]
pub struct HeldDoor<'a, R> {
    rt: &'a R,
    gate: &'a Gate,
    part: Part,
    // What the line is made of, until it is given.
    coming: Option<(MemorySource, MemorySink)>,
    came_back: Option<HeldLine<'a, R>>,
    is_out: bool,
    is_idle: bool,
    is_closed: bool,
}

impl<'a, R> HeldDoor<'a, R> {
    /// A door that gives a line over these.
    pub fn new(
        rt: &'a R,
        gate: &'a Gate,
        part: Part,
        source: MemorySource,
        sink: MemorySink,
    ) -> Self
        ensures out { result.is_out ≡ false }
        ensures idle { result.is_idle ≡ false }
    {
        HeldDoor {
            rt,
            gate,
            part,
            coming: Some((source, sink)),
            came_back: None,
            is_out: false,
            is_idle: false,
            is_closed: false,
        }
    }

    /// What was written on the line that came back.
    pub fn sent(&self) -> &[u8] {
        match &self.came_back {
            Some(line) => line.sink.bytes(),
            None => &[],
        }
    }
}

impl<'a, R: Wait + Clock + Sync> Door for HeldDoor<'a, R> {
    type L = HeldLine<'a, R>;

    ghost out = { λ door. untold_if door.is_out };

    ghost idle = { λ door. door.is_idle };

    ghost served = { λ _. None };

    ghost closed = { λ door. door.is_closed };

    ghost faults = { λ _. 0 };

    fn next(&mut self) -> Turn<HeldLine<'a, R>> {
        self.is_closed = false;
        let Some((source, sink)) = self.coming.take() else {
            self.is_closed = true;
            return Turn::Closed;
        };
        self.is_out = true;
        Turn::Line(HeldLine {
            rt: self.rt,
            gate: self.gate,
            part: self.part,
            has_read: false,
            source,
            sink,
            read_faults: 0,
            write_faults: 0,
        })
    }

    fn back(&mut self, line: HeldLine<'a, R>) {
        self.came_back = Some(line);
        self.is_out = false;
    }

    fn rested(&mut self, _rest: Rest) {
        self.is_idle = false;
    }
}

// ---- links

/// A link in memory. It reports neither what it was asked nor what was heard; the link inside it
/// has that.
#[derive(Drop)]
pub struct HeldLink<'a, R> {
    rt: &'a R,
    gate: &'a Gate,
    part: Part,
    link: MemoryLink,
    faults: u64,
}

impl<'a, R> HeldLink<'a, R> {
    /// This link, held back by the gate, or opening it.
    pub fn new(rt: &'a R, gate: &'a Gate, part: Part, link: MemoryLink) -> Self {
        HeldLink {
            rt,
            gate,
            part,
            link,
            faults: 0,
        }
    }

    /// How many exchanges there were, and how many of them failed.
    pub fn counts(&self) -> (usize, u64) {
        (self.link.asked().len(), self.faults)
    }
}

impl<R: Wait + Clock> Link for HeldLink<'_, R> {
    ghost asked = { λ _. None };

    ghost heard = { λ _. None };

    ghost link_faults = { λ link. link.faults };

    fn exchange(
        &mut self,
        address: &str,
        request: &[u8],
        into: &mut [u8],
    ) -> Result<usize, Failed> {
        let goes_on = match self.part {
            Part::Free => true,
            Part::Waits => self.gate.wait(self.rt, OPEN),
            Part::Opens => {
                self.gate.reach(self.rt, OPEN);
                true
            }
        };
        if goes_on {
            if let Ok(count) = self.link.exchange(address, request, into) {
                return Ok(count);
            }
        }
        self.faults = self.faults.saturating_add(1);
        Err(Failed)
    }
}

/// A door that is idle once, and closed after that. It keeps its rest, and opens the gate if
/// nothing was due.
#[derive(Drop)]
pub struct IdleDoor<'a, R> {
    rt: &'a R,
    gate: &'a Gate,
    has_been_idle: bool,
    told: Option<Rest>,
    is_out: bool,
    is_idle: bool,
    is_closed: bool,
}

impl<'a, R> IdleDoor<'a, R> {
    /// A door that has not rested yet.
    pub fn new(rt: &'a R, gate: &'a Gate) -> Self
        ensures out { result.is_out ≡ false }
        ensures idle { result.is_idle ≡ false }
    {
        IdleDoor {
            rt,
            gate,
            has_been_idle: false,
            told: None,
            is_out: false,
            is_idle: false,
            is_closed: false,
        }
    }

    /// Its rest.
    pub fn told(&self) -> Option<Rest> {
        self.told
    }
}

impl<R: Wait + Sync> Door for IdleDoor<'_, R> {
    type L = MemoryLine;

    ghost out = { λ door. untold_if door.is_out };

    ghost idle = { λ door. door.is_idle };

    ghost served = { λ _. None };

    ghost closed = { λ door. door.is_closed };

    ghost faults = { λ _. 0 };

    fn next(&mut self) -> Turn<MemoryLine> {
        self.is_closed = self.has_been_idle;
        self.is_idle = !self.has_been_idle;
        self.has_been_idle = true;
        if self.is_idle {
            Turn::Idle
        } else {
            Turn::Closed
        }
    }

    fn back(&mut self, _line: MemoryLine) {
        self.is_out = false;
    }

    fn rested(&mut self, rest: Rest) {
        self.is_idle = false;
        self.told = Some(rest);
        if let Rest::Nothing { .. } = rest {
            self.gate.reach(self.rt, OPEN);
        }
    }
}
