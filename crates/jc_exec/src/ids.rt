//! Class ids in the order in which they were first seen, each with its place.
ghost use Rattle.std.specs.Prelude.{◌≡◌, ◌≢◌, ◌+◌, ◌-◌, ◌<◌, ◌^◌, ◌++◌, ◌∷◌, [], ℕ, false, Some, length, slice_index, take, IsTrue, IfOk, IfSome, IfNone, OnOk, OnErr};
ghost use Rattle.std.specs.BTreeMap.{get};
ghost use Rattle.std.specs.Ordering.{nat_cmp};
ghost use Rattle.jc_exec.specs.Places.{window, home, Looks, IsFree, AreTaken, Reaches, ReachesAll, AreApart};

use std::alloc::{AllocError, Global};
use std::collections::BTreeMap;
use std::marker::Model;

/// In how many slots an id is looked for, from its home on.
const WINDOW: usize = 16;

/// What comes of looking for an id in its window.
enum Met {
    /// It stands at this place of the ids.
    Found(usize),
    /// A free slot was met.
    Missing,
    /// The slots have others.
    Full,
}

/// Class ids, each once, with an index of their places.
///
/// A slot is free, as 0, or has the place of an id and 1. An id is looked for in a window of slots; where others took all of them, its place is
/// in a tree. So looking for one costs no more than the window and the tree, whatever ids a file has.
#[derive(Drop)]
pub struct Ids {
    ids: Vec<u64>,
    slots: Vec<u32>,
    others: BTreeMap<u64, u32>,
}

impl Model for Ids {
    ghost use Rattle.std.specs.Prelude.{ℕ, List};
    ghost use Rattle.jc_exec.specs.Places.{AreIndexed};

    ghost Value = { List ℕ };

    ghost view = { λ a. a.ids.items };

    ghost invariant = { λ a. AreIndexed a.ids.items a.slots.items a.others };
}

/// The first slot of an id's window.
fn home(id: u64, slots: usize) -> usize
    requires { window < slots }
    ensures is { result ≡ home id slots }
    ensures room { result + window < slots }
{
    (id % (slots - WINDOW) as u64) as usize
}

/// Whether a slot has the place of an id.
fn is_at(ids: &[u64], slot: usize, id: u64) -> bool
    requires { 0 < slot }
    ensures there { IsTrue result → (slot - 1 < length ids.now) × (slice_index ids.now (slot - 1) ≡ id) }
    ensures other { result ≡ false → (place : ℕ) → slot ≡ place + 1 → place < length ids.now → slice_index ids.now place ≢ id }
{
    slot <= ids.len() && ids[slot - 1] == id
}

/// Looks for an id in its window.
fn look(ids: &[u64], slots: &[u32], id: u64) -> Met
    requires { window < length slots.now }
    ensures { Looks result ids.now slots.now id }
{
    let from = home(id, slots.len());
    'looking: for k in from..from + WINDOW {
        let slot = slots[k] as usize;
        if slot == 0 {
            return Met::Missing;
        }
        if is_at(ids, slot, id) {
            return Met::Found(slot - 1);
        }
    }
    Met::Full
}

/// The first free slot of an id's window.
fn free_slot(slots: &[u32], id: u64) -> Option<usize>
    requires { window < length slots.now }
    ensures free { IfSome result (IsFree slots.now id) }
    ensures full { IfNone result (AreTaken slots.now (home id (length slots.now)) window) }
{
    let from = home(id, slots.len());
    'looking: for k in from..from + WINDOW {
        if slots[k] == 0 {
            return Some(k);
        }
    }
    None
}

/// The place of an id, where the tree has it.
fn place_in_tree(ids: &[u64], others: &BTreeMap<u64, u32>, id: u64) -> Option<usize>
    ensures found { IfSome result (λ place. (place < length ids.now) × (slice_index ids.now place ≡ id)) }
    ensures known { (place : ℕ) → place < length ids.now → slice_index ids.now place ≡ id → get nat_cmp others.now id ≡ Some place
        → result ≡ Some place }
{
    let place = *others.get(&id)? as usize;
    if is_at(ids, place + 1, id) {
        return Some(place);
    }
    None
}

/// Makes an id that isn't found be found at a place.
fn lay(
    slots: &mut Vec<u32>,
    others: &mut BTreeMap<u64, u32>,
    id: u64,
    place: u32,
) -> Result<(), AllocError>
    requires room { window < length slots.old.items }
    requires few { place + 1 < 2 ^ 32 }
    ensures own { OnOk result (Reaches slots.new.items others.new id place) }
    ensures rest { (other at : ℕ) → other ≢ id → Reaches slots.old.items others.old other at → Reaches slots.new.items others.new other at }
    ensures length { length slots.new.items ≡ length slots.old.items }
{
    match free_slot(slots, id) {
        Some(slot) => slots[slot] = place + 1,
        None => {
            others.insert(id, place)?;
        }
    }
    Ok(())
}

/// Slots for more ids, in which each of these is found.
fn laid(
    alloc: Global,
    ids: &[u64],
    count: usize,
) -> Result<(Vec<u32>, BTreeMap<u64, u32>), AllocError>
    requires apart { AreApart ids.now }
    requires few { length ids.now < 2 ^ 32 }
    requires room { window < count }
    ensures room { IfOk result (λ made. window < length made.0.items) }
    ensures reaches { IfOk result (λ made. ReachesAll made.0.items made.1 ids.now (length ids.now)) }
{
    let mut slots = vec![in alloc; 0; count]?;
    let mut others = BTreeMap::new(alloc);
    'laying: for place in 0..ids.len() {
        lay(&mut slots, &mut others, ids[place], place as u32)?;
    }
    Ok((slots, others))
}

/// Makes the slots about half as many again, an odd number, where two of three are taken.
fn make_room(
    alloc: Global,
    ids: &[u64],
    slots: &mut Vec<u32>,
    others: &mut BTreeMap<u64, u32>,
) -> Result<(), AllocError>
    requires apart { AreApart ids.now }
    requires few { length ids.now < 2 ^ 32 }
    requires reaches { ReachesAll slots.old.items others.old ids.now (length ids.now) }
    ensures room { OnOk result (window < length slots.new.items) }
    ensures reaches { ReachesAll slots.new.items others.new ids.now (length ids.now) }
    ensures unchanged { OnErr result (slots.new.items ≡ slots.old.items) }
{
    if WINDOW < slots.len() && ids.len() < slots.len() / 3 * 2 {
        return Ok(());
    }
    let count = (slots.len() / 4)
        .saturating_mul(6)
        .saturating_add(2 * WINDOW + 1);
    let (more, far) = laid(alloc, ids, count)?;
    *slots = more;
    *others = far;
    Ok(())
}

impl Ids {
    /// No ids.
    pub fn new(alloc: Global) -> Ids
        ensures { result ≡ [] }
    {
        Ids {
            ids: Vec::new(alloc),
            slots: Vec::new(alloc),
            others: BTreeMap::new(alloc),
        }
    }

    /// The place of an id.
    pub fn place(&self, id: u64) -> Option<usize>
        ensures found { IfSome result (λ place. (place < length self.now) × (slice_index self.now place ≡ id)) }

        // An id that is there has its one place.
        ensures only { (place : ℕ) → place < length self.now → slice_index self.now place ≡ id → result ≡ Some place }
    {
        if self.ids.is_empty() {
            return None;
        }
        match look(&self.ids, &self.slots, id) {
            Met::Found(place) => Some(place),
            Met::Missing => None,
            Met::Full => place_in_tree(&self.ids, &self.others, id),
        }
    }

    /// The id at a place.
    pub fn at(&self, place: usize) -> u64
        requires { place < length self.now }
        ensures { result ≡ slice_index self.now place }
    {
        self.ids[place]
    }

    /// The ids without the index of their places.
    pub fn into_ids(self) -> Vec<u64>
        ensures { result.items ≡ self }
    {
        self.ids
    }

    /// Puts an id that isn't there behind the others.
    pub fn push(&mut self, alloc: Global, id: u64) -> Result<(), AllocError>
        requires { (place : ℕ) → place < length self.old → slice_index self.old place ≢ id }
        ensures ok { OnOk result (self.new ≡ self.old ++ id ∷ []) }
        ensures err { OnErr result (self.new ≡ self.old) }
    {
        let place = self.ids.len();
        if place >= 0xffff_ffff {
            return Err(AllocError);
        }
        make_room(alloc, &self.ids, &mut self.slots, &mut self.others)?;
        lay(&mut self.slots, &mut self.others, id, place as u32)?;
        self.ids.push(id)?;
        Ok(())
    }

    /// Leaves the first so many ids.
    pub fn truncate(&mut self, count: usize)
        ensures { self.new ≡ take count self.old }
    {
        self.ids.truncate(count);
    }
}
