//! Marks of the items of a list, used to look them up: a mark is a number for the looked-up
//! property of an item. Marks are kept in chains, about as many as there are marks, so that a
//! look-up visits only the few marks in the same chain as the one it is looking for.

ghost use Rattle.std.specs.Prelude.{◌≡◌, ℕ, Bool, ◌∷◌, [], ◌+◌, ◌-◌, ◌^◌, ◌<◌, ◌≤◌, ◌++◌, OnErr};
ghost use Rattle.std.specs.Prelude.{OnErr, OnOk, IfOk, is_some, length, nat_eq, option_copied, set};
ghost use Rattle.std.specs.Prelude.{slice_index, vec_capacity, vec_len};
ghost use Rattle.std.specs.Fn.{FnReturnsAt};
ghost use Rattle.fedi_register.specs.Chains.{HasHeads, IsChained, chain_of, marks_of, newest};
ghost use Rattle.fedi_register.specs.Chains.{step_before};
ghost use Rattle.fedi_register.specs.Marks.{Decides, first_place, item_at, passes_at, places_of};

use std::alloc::{AllocError, Global};
use std::marker::Model;

// The initial number of chains.
const FEWEST_CHAINS: usize = 16;

/// A list with more items than this gets no room for another one, so that every position fits a
/// `u32`.
pub const MOST_ITEMS: usize = 4_294_967_290;

// A mark with its position, and one more than the number of the newest step before it in its chain,
// or 0 if it is the first of the chain.
#[derive(Drop)]
struct Step {
    mark: u32,
    place: u32,
    before: u32,
}

/// Marks of the items of a list, each with the item's position, in order.
#[derive(Drop)]
pub struct Marks {
    steps: Vec<Step>,
    // One more than the number of each chain's newest step, or 0 if the chain has none. There are
    // no heads before room is made, so an empty list takes no memory.
    heads: Vec<u32>,
    // The number of further marks that there is room for.
    room: usize,
}

impl Model for Marks {
    ghost use Rattle.fedi_register.specs.Marks.{Marked};

    ghost Value = { Marked };

    ghost use Rattle.fedi_register.specs.Chains.{AreMarks, marked_in};

    ghost view = { marked_in };

    ghost invariant = { AreMarks };
}

#[tactic(auto, unfolding(crate::specs::Chains::chain_of))]
fn chain_of(mark: u32, chains: usize) -> usize
    requires { 0 < chains }
    ensures value { result ≡ chain_of chains mark }
    ensures small { result < chains }
{
    mark as usize % chains
}

fn head_of(heads: &[u32], chain: usize) -> u32
    ensures { result ≡ slice_index heads.now chain }
{
    match heads.get(chain) {
        Some(head) => *head,
        None => 0,
    }
}

// One more than the number of the newest step of the mark's chain, or 0 if there is none.
fn newest_of(heads: &[u32], mark: u32) -> u32
    ensures { result ≡ slice_index heads.now (chain_of (length heads.now) mark) }
{
    if heads.is_empty() {
        return 0;
    }
    head_of(heads, chain_of(mark, heads.len()))
}

fn set_head(heads: &mut Vec<u32>, chain: usize, number: usize)
    requires there { chain < length heads.old.items }
    requires few { number < 2 ^ 32 }
    ensures { heads.new.items ≡ set heads.old.items chain number }
{
    heads[chain] = number as u32;
}

// Links the step at this position into its chain, after the earlier steps.
fn link(steps: &mut [Step], heads: &mut [u32], place: usize)
    requires there { place < length steps.old }
    requires few { length steps.old < 2 ^ 32 }
    requires chains { 0 < length heads.old }
    requires chained { IsChained (length heads.old) steps.old place }
    requires heads { HasHeads (length heads.old) (marks_of steps.old) heads.old place }
    ensures marks { marks_of steps.new ≡ marks_of steps.old }
    ensures chains { length heads.new ≡ length heads.old }
    ensures chained { IsChained (length heads.old) steps.new (place + 1) }
    ensures heads { HasHeads (length heads.old) (marks_of steps.new) heads.new (place + 1) }
{
    let chain = chain_of(steps[place].mark, heads.len());
    steps[place].before = heads[chain];
    heads[chain] = (place + 1) as u32;
}

// Links each step into its chain. All chains are empty.
fn link_all(steps: &mut [Step], heads: &mut [u32])
    requires few { length steps.old < 2 ^ 32 }
    requires chains { 0 < length heads.old }
    requires empty { (chain : ℕ) → slice_index heads.old chain ≡ 0 }
    ensures marks { marks_of steps.new ≡ marks_of steps.old }
    ensures chains { length heads.new ≡ length heads.old }
    ensures chained { IsChained (length heads.old) steps.new (length steps.old) }
    ensures heads { HasHeads (length heads.old) (marks_of steps.new) heads.new
        (length steps.old) }
{
    for place in 0..steps.len() {
        link(steps, heads, place);
    }
}

// Empties the chains and links each step into its chain again.
fn link_anew(steps: &mut Vec<Step>, heads: &mut Vec<u32>)
    requires few { length steps.old.items < 2 ^ 32 }
    requires chains { 0 < length heads.old.items }
    ensures marks { marks_of steps.new.items ≡ marks_of steps.old.items }
    ensures len { vec_len steps.new ≡ vec_len steps.old }
    ensures capacity { vec_capacity steps.new ≡ vec_capacity steps.old }
    ensures chains { length heads.new.items ≡ length heads.old.items }
    ensures chained { IsChained (length heads.old.items) steps.new.items
        (length steps.old.items) }
    ensures heads { HasHeads (length heads.old.items) (marks_of steps.new.items) heads.new.items
        (length steps.old.items) }
{
    heads.as_mut_slice().fill(0);
    link_all(steps.as_mut_slice(), heads.as_mut_slice());
}

// Doubles the number of chains, to at least `FEWEST_CHAINS`, and links each step into its chain
// again. The error is out of memory, and then nothing has changed.
fn add_chains(steps: &mut Vec<Step>, heads: &mut Vec<u32>) -> Result<(), AllocError>
    requires few { length steps.old.items < 2 ^ 32 }
    ensures marks { marks_of steps.new.items ≡ marks_of steps.old.items }
    ensures len { vec_len steps.new ≡ vec_len steps.old }
    ensures capacity { vec_capacity steps.new ≡ vec_capacity steps.old }
    ensures ok { OnOk result ((0 < length heads.new.items)
        × IsChained (length heads.new.items) steps.new.items (length steps.new.items)
        × HasHeads (length heads.new.items) (marks_of steps.new.items) heads.new.items
        (length steps.new.items)) }
    ensures err { OnErr result
        ((steps.new ≡ steps.old) × (heads.new.items ≡ heads.old.items)) }
{
    let chains = heads.len() * 2;
    heads.resize(
        if chains < FEWEST_CHAINS {
            FEWEST_CHAINS
        } else {
            chains
        },
        0,
    )?;
    link_anew(steps, heads);
    Ok(())
}

fn step_before(steps: &[Step], number: u32) -> Option<&Step>
    ensures { option_copied result ≡ step_before steps.now number }
{
    if number == 0 {
        return None;
    }
    steps.get(number as usize - 1)
}

// The first position with this mark that passes. A chain runs from its newest step to its first, so
// the last match found along it is the result.
fn first_in_chain<F: Fn(usize) -> bool>(
    steps: &[Step],
    chains: usize,
    head: u32,
    mark: u32,
    passes: F,
) -> Option<usize>
    requires callable { F.IsAlwaysCallable passes }
    requires chained { IsChained chains steps.now (length steps.now) }
    requires head { head
        ≡ newest chains (chain_of chains mark) (marks_of steps.now) (length steps.now) }
    ensures { (q : ℕ → Bool) → Decides (F.post passes) q
        → result ≡ first_place q mark (marks_of steps.now) }
{
    let mut found = None;
    let mut next = head;
    while let Some(step) = step_before(steps, next) {
        if step.mark == mark && passes(step.place as usize) {
            found = Some(step.place as usize);
        }
        next = step.before;
    }
    found
}

// Whether a position with this mark passes. The walk along the chain ends at the first one that
// does.
fn any_in_chain<F: Fn(usize) -> bool>(
    steps: &[Step],
    chains: usize,
    head: u32,
    mark: u32,
    passes: F,
) -> bool
    requires callable { F.IsAlwaysCallable passes }
    requires chained { IsChained chains steps.now (length steps.now) }
    requires head { head
        ≡ newest chains (chain_of chains mark) (marks_of steps.now) (length steps.now) }
    ensures { (q : ℕ → Bool) → Decides (F.post passes) q
        → result ≡ is_some (first_place q mark (marks_of steps.now)) }
{
    let mut next = head;
    while let Some(step) = step_before(steps, next) {
        if step.mark == mark && passes(step.place as usize) {
            return true;
        }
        next = step.before;
    }
    false
}

// The positions with this mark, in order. The error is out of memory.
fn places_in_chain(
    alloc: Global,
    steps: &[Step],
    chains: usize,
    head: u32,
    mark: u32,
) -> Result<Vec<usize>, AllocError>
    requires chained { IsChained chains steps.now (length steps.now) }
    requires head { head
        ≡ newest chains (chain_of chains mark) (marks_of steps.now) (length steps.now) }
    ensures { IfOk result (λ places. places.items ≡ places_of mark (marks_of steps.now)) }
{
    let mut places = Vec::new(alloc);
    let mut next = head;
    while let Some(step) = step_before(steps, next) {
        if step.mark == mark {
            places.push(step.place as usize)?;
        }
        next = step.before;
    }
    places.as_mut_slice().reverse();
    Ok(places)
}

// Whether there is an item at the position and it passes.
#[tactic(auto, unfolding(crate::specs::Marks::passes_at))]
fn passes_at<T, F: Fn(&T) -> bool>(items: &[T], place: usize, passes: &F) -> bool
    requires { F.IsAlwaysCallable passes.now }
    ensures { (p : T → Bool) → Decides (FnReturnsAt F.Fn passes.now) p
        → result ≡ passes_at p items.now place }
{
    match items.get(place) {
        Some(item) => passes(item),
        None => false,
    }
}

impl Marks {
    /// No marks and no room.
    pub fn empty(alloc: Global) -> Marks
        ensures { result ≡ record { marks = []; room = 0 } }
    {
        Marks {
            steps: Vec::new(alloc),
            heads: Vec::new(alloc),
            room: 0,
        }
    }

    /// Whether there are no marks.
    pub fn is_empty(&self) -> bool
        ensures { result ≡ nat_eq (length self.now.marks) 0 }
    {
        self.steps.is_empty()
    }

    /// Makes room for two more marks. The error is out of memory, also if there are more than
    /// [`MOST_ITEMS`] marks, and then there is room for none.
    pub fn reserve(&mut self) -> Result<(), AllocError>
        ensures marks { self.new.marks ≡ self.old.marks }
        ensures room { OnOk result (2 ≤ self.new.room) }
        ensures err { OnErr result (self.new.room ≡ 0) }
    {
        self.room = 0;
        if self.steps.len() > MOST_ITEMS {
            return Err(AllocError);
        }
        self.steps.reserve(2)?;
        if self.heads.len() < self.steps.len() + 2 {
            add_chains(&mut self.steps, &mut self.heads)?;
        }
        self.room = 2;
        Ok(())
    }

    /// Appends a mark, for which there is room. This allocates nothing.
    pub fn push(&mut self, mark: u32, place: u32)
        requires { 1 ≤ self.old.room }
        ensures { self.new ≡ record {
          marks = self.old.marks ++ record { mark = mark; place = place } ∷ [];
          room = self.old.room - 1;
        } }
    {
        let chain = chain_of(mark, self.heads.len());
        let before = head_of(&self.heads, chain);
        self.steps.push_reserved(Step {
            mark,
            place,
            before,
        });
        set_head(&mut self.heads, chain, self.steps.len());
        self.room -= 1;
    }

    // The first position with this mark that passes.
    fn find<F: Fn(usize) -> bool>(&self, mark: u32, passes: F) -> Option<usize>
        requires { F.IsAlwaysCallable passes }
        ensures { (q : ℕ → Bool) → Decides (F.post passes) q
            → result ≡ first_place q mark self.now.marks }
    {
        let head = newest_of(&self.heads, mark);
        first_in_chain(&self.steps, self.heads.len(), head, mark, passes)
    }

    // Whether a position with this mark passes.
    fn any<F: Fn(usize) -> bool>(&self, mark: u32, passes: F) -> bool
        requires { F.IsAlwaysCallable passes }
        ensures { (q : ℕ → Bool) → Decides (F.post passes) q
            → result ≡ is_some (first_place q mark self.now.marks) }
    {
        let head = newest_of(&self.heads, mark);
        any_in_chain(&self.steps, self.heads.len(), head, mark, passes)
    }

    /// The positions with this mark, in order. The error is out of memory.
    pub fn places_of(&self, alloc: Global, mark: u32) -> Result<Vec<usize>, AllocError>
        ensures { IfOk result (λ places. places.items ≡ places_of mark self.now.marks) }
    {
        let head = newest_of(&self.heads, mark);
        places_in_chain(alloc, &self.steps, self.heads.len(), head, mark)
    }

    /// Whether one of these items has this mark and passes the test. The slice may be shorter than
    /// the list that was marked.
    pub fn any_of<T, F: Fn(&T) -> bool>(&self, items: &[T], mark: u32, passes: F) -> bool
        requires { F.IsAlwaysCallable passes }
        ensures { (p : T → Bool) → Decides (FnReturnsAt F.Fn passes) p
            → result ≡ is_some (first_place (passes_at p items.now) mark self.now.marks) }
    {
        self.any(mark, |place| passes_at(items, place, &passes))
    }

    /// The position of the first of these items that has this mark and passes the test.
    pub fn position_of<T, F: Fn(&T) -> bool>(
        &self,
        items: &[T],
        mark: u32,
        passes: F,
    ) -> Option<usize>
        requires { F.IsAlwaysCallable passes }
        ensures { (p : T → Bool) → Decides (FnReturnsAt F.Fn passes) p
            → result ≡ first_place (passes_at p items.now) mark self.now.marks }
    {
        self.find(mark, |place| passes_at(items, place, &passes))
    }

    /// The first of these items that has this mark and passes the test.
    pub fn first_of<'a, T, F: Fn(&T) -> bool>(
        &self,
        items: &'a [T],
        mark: u32,
        passes: F,
    ) -> Option<&'a T>
        requires { F.IsAlwaysCallable passes }
        ensures { (p : T → Bool) → Decides (FnReturnsAt F.Fn passes) p
            → option_copied result
            ≡ item_at items.now (first_place (passes_at p items.now) mark self.now.marks) }
    {
        match self.position_of(items, mark, passes) {
            Some(place) => items.get(place),
            None => None,
        }
    }
}
