ghost use Rattle.std.specs.Prelude.{◌≡◌, ◌+◌, ◌≤◌, ◌<◌, ◌^◌, ◌↔◌, [], IsTrue, IsOk, IfOk, OnOk, OnErr, IfSome, IfNone, option_map, vec_capacity};
ghost use Rattle.std.specs.List.{list_any};
ghost use Rattle.al_event.specs.Store.{new_place, with_span, without_span, begins_at, hit, next_span};
ghost use Rattle.al_region.specs.Region.{IsSound};
ghost use Rattle.al_region.specs.Kept.{IsFresh};

use al_base::NoMemory;
use al_event::Block;
use al_run_tree::{
    Extent, NIL, Nodes, Steps, find, first_fit, first_from, insert, last_to, take_out,
};
use std::alloc::Global;
use std::marker::{Brand, Model};
use std::sync::ledger::{Blank, Ledger};

/// The address at which a region begins.
pub const BASE: u32 = 0x1000_0000;

/// A region has at most so many live blocks.
pub const MOST_BLOCKS: usize = 65_536;

/// No live block of that kind begins there.
#[derive(Clone, Copy, Debug, PartialEq, Eq)]
pub struct NotThere;

/// The live blocks of a stretch of addresses from [`BASE`] on.
///
/// They are kept as a balanced tree in a table of nodes, which tells of the free runs between them too. `free` has the
/// indexes of nodes that were given back; those from `used` on were never taken.
#[derive(Drop)]
pub struct Region {
    bytes: u32,
    nodes: Nodes,
    top: u32,
    live: u32,
    used: u32,
    free: Vec<u32>,
}

impl Model for Region {
    ghost use Rattle.std.specs.Prelude.{◌≤◌, vec_capacity};
    ghost use Rattle.al_event.specs.Store.{most_blocks};
    ghost use Rattle.al_run_tree.specs.Tree.{blocks};
    ghost use Rattle.al_region.specs.Region.{Area, IsSound};
    ghost use Rattle.al_region.specs.Kept.{IsKept, tree_at};

    ghost Value = { Area };

    ghost view = { λ r. record { bytes = r.bytes; blocks = blocks (tree_at r.nodes r.top) } };

    ghost invariant = { λ r. record {
      sound : IsSound (record { bytes = r.bytes; blocks = blocks (tree_at r.nodes r.top) });
      kept : IsKept r.nodes r.top r.live r.used r.free.items (tree_at r.nodes r.top);
      room : most_blocks ≤ vec_capacity r.free;
    } };
}

impl Region {
    ghost use Rattle.al_event.specs.Store.{new_place, with_span, without_span, begins_at, hit, next_span};
    ghost use Rattle.al_region.specs.Region.{IsRegionSize, IsSound};

    /// A region of so many bytes, a whole number of MiB from 1 to 256, with no block.
    ///
    /// It reserves all that later calls need.
    pub fn new(alloc: Global, bytes: u32) -> Result<Region, NoMemory>
        requires { IsRegionSize bytes }
        ensures empty { IfOk result (λ r. r ≡ record { bytes = bytes; blocks = [] }) }
        ensures sound { IfOk result IsSound }
    {
        let nodes = Nodes::new(alloc, MOST_BLOCKS + 1)?;
        let free = Vec::with_capacity(alloc, MOST_BLOCKS)?;
        Ok(Region {
            bytes,
            nodes,
            top: NIL,
            live: 0,
            used: 1,
            free,
        })
    }

    /// Places a block of so many bytes, at least 1, and gives its place: the least there is.
    ///
    /// None where it fits nowhere, or as many blocks live as may.
    pub fn take(&mut self, bytes: u32, kind: Block) -> Option<u32>
        requires { 0 < bytes }
        ensures place { result ≡ new_place self.old.bytes self.old.blocks bytes }
        ensures taken { IfSome result (λ at. self.new ≡ record self.old { blocks = with_span (record { at = at; size = bytes; kind = kind }) self.old.blocks }) }
        ensures kept { IfNone result (self.new ≡ self.old) }
        ensures sound { IsSound self.new }
    {
        take_from::<Brand>(self, bytes, kind, Blank::new(1))
    }

    /// The same, with the reads and writes of nodes counted.
    pub fn take_counted<L: Ledger>(
        &mut self,
        bytes: u32,
        kind: Block,
        steps: &mut Steps<L>,
    ) -> Option<u32>
        requires { 0 < bytes }
        ensures place { result ≡ new_place self.old.bytes self.old.blocks bytes }
        ensures taken { IfSome result (λ at. self.new ≡ record self.old { blocks = with_span (record { at = at; size = bytes; kind = kind }) self.old.blocks }) }
        ensures kept { IfNone result (self.new ≡ self.old) }
        ensures sound { IsSound self.new }
        ensures cost { steps.new ≤ steps.old + 2048 }
    {
        if self.live as usize >= MOST_BLOCKS {
            return None;
        }
        let at = first_fit(&self.nodes, self.top, BASE, BASE + self.bytes, bytes, steps)?;
        let index = fresh(&mut self.free, &mut self.used);
        let block = Extent {
            at,
            size: bytes,
            kind,
        };
        self.top = insert(&mut self.nodes, self.top, index, block, steps);
        self.live += 1;
        Some(at)
    }

    /// Removes the block of this kind that begins at `at`.
    pub fn give(&mut self, at: u32, kind: Block) -> Result<(), NotThere>
        ensures there { IsOk result ↔ IsTrue (list_any (begins_at at kind) self.old.blocks) }
        ensures given { OnOk result (self.new ≡ record self.old { blocks = without_span at kind self.old.blocks }) }
        ensures kept { OnErr result (self.new ≡ self.old) }
        ensures sound { IsSound self.new }
    {
        give_to::<Brand>(self, at, kind, Blank::new(1))
    }

    /// The same, with the reads and writes of nodes counted.
    pub fn give_counted<L: Ledger>(
        &mut self,
        at: u32,
        kind: Block,
        steps: &mut Steps<L>,
    ) -> Result<(), NotThere>
        ensures there { IsOk result ↔ IsTrue (list_any (begins_at at kind) self.old.blocks) }
        ensures given { OnOk result (self.new ≡ record self.old { blocks = without_span at kind self.old.blocks }) }
        ensures kept { OnErr result (self.new ≡ self.old) }
        ensures sound { IsSound self.new }
        ensures cost { steps.new ≤ steps.old + 2048 }
    {
        if !self.has_block(at, kind, steps) {
            return Err(NotThere);
        }
        let out = take_out(&mut self.nodes, self.top, at, steps);
        self.top = out.rest;
        self.live -= 1;
        match self.free.push(out.index) {
            Ok(()) => Ok(()),
            Err(_) => unreachable!(),
        }
    }

    // Whether a block of this kind begins at an address.
    fn has_block<L: Ledger>(&self, at: u32, kind: Block, steps: &mut Steps<L>) -> bool
        ensures there { result ≡ list_any (begins_at at kind) self.now.blocks }
        ensures cost { steps.new ≤ steps.old + 22 }
    {
        match find(&self.nodes, self.top, at, steps) {
            Some(block) => block.kind == kind,
            None => false,
        }
    }

    /// Where the live block begins in which the `size` bytes from `at` on lie.
    pub fn hit(&self, at: u32, size: u8) -> Option<u32>
        requires { 0 < size }
        ensures { result ≡ option_map (λ b. b.at) (hit self.now.blocks at size) }
    {
        hit_in::<Brand>(self, at, size, Blank::new(1))
    }

    /// The same, with the reads and writes of nodes counted.
    pub fn hit_counted<L: Ledger>(&self, at: u32, size: u8, steps: &mut Steps<L>) -> Option<u32>
        requires { 0 < size }
        ensures block { result ≡ option_map (λ b. b.at) (hit self.now.blocks at size) }
        ensures cost { steps.new ≤ steps.old + 2048 }
    {
        let block = last_to(&self.nodes, self.top, at, steps)?;
        let end = block.at + block.size;
        (u64::from(at) + u64::from(size) <= u64::from(end)).then_some(block.at)
    }

    /// Place, size in bytes and kind of the live block with the least place not below `from`.
    pub fn next_block(&self, from: u32) -> Option<(u32, u32, Block)>
        ensures { result ≡ option_map (λ b. (b.at, b.size, b.kind)) (next_span self.now.blocks from) }
    {
        next_in::<Brand>(self, from, Blank::new(1))
    }
}

// An index that no node has.
fn fresh(free: &mut Vec<u32>, used: &mut u32) -> u32
    requires { used.old + 1 < 2 ^ 32 }
    ensures fresh { IsFresh used.old free.old.items result used.new free.new.items }
    ensures capacity { vec_capacity free.new ≡ vec_capacity free.old }
{
    match free.pop() {
        Some(index) => index,
        None => {
            let index = *used;
            *used += 1;
            index
        }
    }
}

// The calls that count for nobody.

fn take_from<L: Ledger>(region: &mut Region, bytes: u32, kind: Block, blank: Blank) -> Option<u32>
    requires name { blank.name ≡ L.name }
    requires parts { blank.parts ≡ L.parts }
    requires one { 0 < blank.parts }
    requires some { 0 < bytes }
    ensures place { result ≡ new_place region.old.bytes region.old.blocks bytes }
    ensures taken { IfSome result (λ at. region.new ≡ record region.old { blocks = with_span (record { at = at; size = bytes; kind = kind }) region.old.blocks }) }
    ensures kept { IfNone result (region.new ≡ region.old) }
    ensures sound { IsSound region.new }
{
    region.take_counted(bytes, kind, &mut Steps::<L>::new(blank))
}

fn give_to<L: Ledger>(
    region: &mut Region,
    at: u32,
    kind: Block,
    blank: Blank,
) -> Result<(), NotThere>
    requires name { blank.name ≡ L.name }
    requires parts { blank.parts ≡ L.parts }
    requires one { 0 < blank.parts }
    ensures there { IsOk result ↔ IsTrue (list_any (begins_at at kind) region.old.blocks) }
    ensures given { OnOk result (region.new ≡ record region.old { blocks = without_span at kind region.old.blocks }) }
    ensures kept { OnErr result (region.new ≡ region.old) }
    ensures sound { IsSound region.new }
{
    region.give_counted(at, kind, &mut Steps::<L>::new(blank))
}

fn hit_in<L: Ledger>(region: &Region, at: u32, size: u8, blank: Blank) -> Option<u32>
    requires name { blank.name ≡ L.name }
    requires parts { blank.parts ≡ L.parts }
    requires one { 0 < blank.parts }
    requires some { 0 < size }
    ensures { result ≡ option_map (λ b. b.at) (hit region.now.blocks at size) }
{
    region.hit_counted(at, size, &mut Steps::<L>::new(blank))
}

fn next_in<L: Ledger>(region: &Region, from: u32, blank: Blank) -> Option<(u32, u32, Block)>
    requires name { blank.name ≡ L.name }
    requires parts { blank.parts ≡ L.parts }
    requires one { 0 < blank.parts }
    ensures { result ≡ option_map (λ b. (b.at, b.size, b.kind)) (next_span region.now.blocks from) }
{
    let mut steps = Steps::<L>::new(blank);
    let block = first_from(&region.nodes, region.top, from, &mut steps)?;
    Some((block.at, block.size, block.kind))
}
