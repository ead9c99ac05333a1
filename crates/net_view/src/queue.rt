//! Items in an order in which each stands after those that it needs, the least first that can stand next.

ghost use Rattle.std.specs.Prelude.{◌≡◌, ◌⊎◌, ℕ, ◌<◌, ◌≤◌, true, false, List, [], ◌∷◌, ◌++◌, length, slice_index, ◌+◌, ◌^◌, OnOk, IfOk, MatchOption, All, Contains};
ghost use Rattle.std.specs.BinaryHeap.{heap_items};
ghost use Rattle.net_view.specs.Queue.{is_marked, Needs, IsStuck, Turns, IsCycle};
ghost use Rattle.net_view.specs.QueueOf.{QueueOf, IsListed};

use crate::fault::ConeFault;
use rdc_outside::Seq;
use std::alloc::Global;
use std::cmp::Reverse;
use std::collections::BinaryHeap;
use std::mem;

/// Items by number, each listed, ready to be listed, or waiting for one that it needs.
#[derive(Drop)]
struct Queue<'a> {
    /// What each item needs.
    needs: &'a [Seq<u32>],
    /// How many needs of each item are known to be listed: all before this place.
    at: Vec<usize>,
    /// The items that wait for each item.
    waiting: Vec<Seq<u32>>,
    /// Whether each item is ready or listed.
    queued: Vec<bool>,
    listed: Vec<bool>,
    ready: BinaryHeap<Reverse<u32>>,
    order: Vec<u32>,
}

/// The first need that isn't listed, from a place on; the number of needs where all are.
fn next_unlisted(needs: &[u32], from: usize, listed: &[bool]) -> usize
    requires start { from ≤ length needs.now }
    requires inside { All (λ g. g < length listed.now) needs.now }
    ensures within { result ≤ length needs.now }
    ensures further { from ≤ result }
    ensures passed { (i : ℕ) → from ≤ i → i < result → is_marked listed.now (slice_index needs.now i) ≡ true }
    ensures stopped { result < length needs.now → is_marked listed.now (slice_index needs.now result) ≡ false }
{
    let mut at = from;
    'needs: while at < needs.len() && listed[needs[at] as usize] {
        at += 1;
    }
    at
}

impl<'a> Queue<'a> {
    /// An item that isn't queued gets its place: it is ready, or waits for the next of its needs.
    fn settle(&mut self, f: u32) -> Result<(), ConeFault>
        requires { (due : List ℕ) × QueueOf self.old (f ∷ due) }
        ensures needs { OnOk result (self.new.needs.now ≡ self.old.needs.now) }
        ensures order { OnOk result (self.new.order.items ≡ self.old.order.items) }
        ensures settled { OnOk result ((due : List ℕ) → QueueOf self.old (f ∷ due) → QueueOf self.new due) }
    {
        if self.queued[f as usize] {
            return Ok(());
        }
        let needs = self.needs[f as usize].as_slice();
        let at = next_unlisted(needs, self.at[f as usize], &self.listed);
        self.at[f as usize] = at;
        if at < needs.len() {
            self.waiting[needs[at] as usize].push(f)?;
        } else {
            self.queued[f as usize] = true;
            self.ready.push(Reverse(f))?;
        }
        Ok(())
    }

    /// All items, none listed yet, each in its place.
    fn new(alloc: Global, needs: &'a [Seq<u32>]) -> Result<Queue<'a>, ConeFault>
        requires few { length needs.now < 2 ^ 32 }
        requires closed { (f g : ℕ) → Needs needs.now f g → g < length needs.now }
        ensures queue { IfOk result (λ q. QueueOf q []) }
        ensures same { IfOk result (λ q. q.needs.now ≡ needs.now) }
    {
        let mut queue = Queue {
            needs,
            at: vec![in alloc; 0; needs.len()]?,
            waiting: no_lists(alloc, needs.len())?,
            queued: vec![in alloc; false; needs.len()]?,
            listed: vec![in alloc; false; needs.len()]?,
            ready: BinaryHeap::new(alloc),
            order: Vec::new(alloc),
        };
        'items: for f in 0..needs.len() as u32 {
            queue.settle(f)?;
        }
        Ok(queue)
    }

    /// Lists the next item, and gives those that waited for it; None where none is ready.
    fn list_next(&mut self, alloc: Global) -> Result<Option<Seq<u32>>, ConeFault>
        requires { QueueOf self.old [] }
        ensures same { OnOk result (self.new.needs.now ≡ self.old.needs.now) }
        ensures next { IfOk result (λ waited. MatchOption waited ((heap_items self.new.ready ≡ []) × QueueOf self.new [])
            (λ waiting. (length self.new.order.items ≡ length self.old.order.items + 1) × QueueOf self.new waiting)) }
    {
        let Some(Reverse(f)) = self.ready.pop() else {
            return Ok(None);
        };
        self.listed[f as usize] = true;
        self.order.push(f)?;
        let waiting = &mut self.waiting[f as usize];
        Ok(Some(mem::replace(waiting, Seq::new(alloc))))
    }
}

/// What listing comes to.
#[derive(Drop)]
pub(crate) enum Listing {
    /// All items, in order.
    Order(Vec<u32>),
    /// Items that need one another, from the least on, each followed by one that it needs.
    Cycle(Vec<u32>),
}

/// So many empty lists.
fn no_lists(alloc: Global, count: usize) -> Result<Vec<Seq<u32>>, ConeFault>
    ensures { IfOk result (λ lists. (length lists.items ≡ count) × All (λ l. l ≡ []) lists.items) }
{
    let mut lists = Vec::new(alloc);
    'lists: for _made in 0..count {
        lists.push(Seq::new(alloc))?;
    }
    Ok(lists)
}

/// The first item without a mark.
fn first_unmarked(marks: &[bool]) -> Option<u32>
    requires { length marks.now < 2 ^ 32 }
    ensures { MatchOption result ((f : ℕ) → f < length marks.now → is_marked marks.now f ≡ true)
        (λ f. (f < length marks.now) × (is_marked marks.now f ≡ false)) }
{
    'marks: for f in 0..marks.len() as u32 {
        if !marks[f as usize] {
            return Some(f);
        }
    }
    None
}

/// The first place of an item in a list that has it.
fn first_place(items: &[u32], f: u32) -> usize
    requires { Contains items.now f }
    ensures inside { result < length items.now }
    ensures here { slice_index items.now result ≡ f }
{
    'items: for (k, item) in items.iter().enumerate() {
        if *item == f {
            return k;
        }
    }
    unreachable!()
}

/// The list from its least item on.
fn turned(alloc: Global, cycle: &[u32]) -> Result<Vec<u32>, ConeFault>
    requires { 0 < length cycle.now }
    ensures { IfOk result (λ turned. Turns cycle.now turned.items) }
{
    let mut least = 0;
    'items: for (k, item) in cycle.iter().enumerate() {
        if *item < cycle[least] {
            least = k;
        }
    }
    let (front, back) = cycle.split_at(least);
    let mut turned = Vec::new(alloc);
    turned.extend_from_slice(back)?;
    turned.extend_from_slice(front)?;
    Ok(turned)
}

/// A cycle of items that aren't listed, by going from one to the need at which it has come.
fn find_cycle(
    alloc: Global,
    needs: &[Seq<u32>],
    at: &[usize],
    listed: &[bool],
    start: u32,
) -> Result<Vec<u32>, ConeFault>
    requires stuck { IsStuck needs.now at.now listed.now }
    requires inside { start < length needs.now }
    requires unlisted { is_marked listed.now start ≡ false }
    ensures { IfOk result (λ cycle. IsCycle needs.now cycle.items) }
{
    let mut seen = vec![in alloc; false; needs.len()]?;
    let mut path = Vec::new(alloc);
    let mut f = start;
    'path: while !seen[f as usize] {
        seen[f as usize] = true;
        path.push(f)?;
        f = needs[f as usize].as_slice()[at[f as usize]];
    }
    let (_, cycle) = path.split_at(first_place(&path, f));
    turned(alloc, cycle)
}

/// All items, each after those that it needs, next each time the least that can stand there; or a cycle.
pub(crate) fn least_first(alloc: Global, needs: &[Seq<u32>]) -> Result<Listing, ConeFault>
    requires few { length needs.now < 2 ^ 32 }
    requires closed { (f g : ℕ) → Needs needs.now f g → g < length needs.now }
    ensures { IfOk result (λ listing. IsListed needs.now listing) }
{
    let mut queue = Queue::new(alloc, needs)?;
    'listing: while let Some(waiting) = queue.list_next(alloc)? {
        'waiting: for f in waiting.as_slice() {
            queue.settle(*f)?;
        }
    }
    match first_unmarked(&queue.listed) {
        None => Ok(Listing::Order(queue.order)),
        Some(start) => Ok(Listing::Cycle(find_cycle(
            alloc,
            needs,
            &queue.at,
            &queue.listed,
            start,
        )?)),
    }
}
