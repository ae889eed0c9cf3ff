ghost use Rattle.std.specs.Prelude.{◌≡◌, ◌+◌, ◌<◌, ◌^◌, [], Some, None, length, IfOk, IfErr, OnOk, OnErr, Ok, Err, option_map};
ghost use Rattle.al_event.specs.Store.{is_nil_heap};
ghost use Rattle.al_region.specs.Region.{IsSound};
ghost use Rattle.al_store.specs.Memory.{IsWidth, access};

use crate::memory::{clear, get_word, put_word, write};
use al_base::{NoMemory, Trap};
use al_event::Block;
use al_region::{BASE, NotThere, Region};
use std::alloc::Global;
use std::marker::Model;

/// The live blocks of a region, with their bytes.
///
/// The memory reaches from the region's base to the end of the highest block that there ever was. All that the region
/// may need is reserved by `new`, and it is touched as far as blocks lay.
#[derive(Drop)]
pub struct Store {
    region: Region,
    memory: Vec<u8>,
}

impl Model for Store {
    ghost use Rattle.std.specs.Prelude.{◌≤◌, vec_capacity};
    ghost use Rattle.al_region.specs.Region.{IsSound};
    ghost use Rattle.al_store.specs.Memory.{Contents, lives_of, AreHeld};

    ghost Value = { Contents };

    ghost view = { λ s. record { region = s.region.bytes; blocks = lives_of s.memory.items s.region.blocks } };

    ghost invariant = { λ s. record {
      sound : IsSound s.region;
      held : AreHeld s.memory.items s.region.blocks;
      room : s.region.bytes ≤ vec_capacity s.memory;
    } };
}

impl Store {
    ghost use Rattle.al_event.specs.Store.{load, store_word, alloc_block, free_block, new_place, next_span, region_base, spans_of, with_block};
    ghost use Rattle.al_region.specs.Region.{IsLaid, IsRegionSize};
    ghost use Rattle.al_store.specs.Memory.{IsWidth};

    /// A store over a region of so many bytes, a whole number of MiB from 1 to 256, with no block.
    ///
    /// It reserves all that later calls need.
    pub fn new(alloc: Global, bytes: u32) -> Result<Store, NoMemory>
        requires { IsRegionSize bytes }
        ensures empty { IfOk result (λ s. s ≡ record { region = bytes; blocks = [] }) }
    {
        let region = Region::new(alloc, bytes)?;
        let memory = Vec::with_capacity(alloc, bytes as usize)?;
        Ok(Store { region, memory })
    }

    /// The word of 1, 2 or 4 bytes at an address, zero-extended.
    pub fn load(&self, at: u32, size: u8) -> Result<u32, Trap>
        requires { IsWidth size }
        ensures { result ≡ load self.now.blocks at size }
    {
        let from = access(&self.region, at, size)?;
        Ok(get_word(&self.memory, from, usize::from(size)))
    }

    /// Writes the lowest 1, 2 or 4 bytes of a word at an address.
    pub fn store(&mut self, at: u32, size: u8, word: u32) -> Result<(), Trap>
        requires { IsWidth size }
        ensures ok { OnOk result (store_word self.old.blocks at size word ≡ Ok self.new.blocks) }
        ensures err { IfErr result (λ trap. store_word self.old.blocks at size word ≡ Err trap) }
        ensures kept { OnErr result (self.new ≡ self.old) }
        ensures region { self.new.region ≡ self.old.region }
    {
        let from = access(&self.region, at, size)?;
        put_word(&mut self.memory, from, usize::from(size), word);
        Ok(())
    }

    /// Places a block of so many zeros, at least 1, and gives its place.
    pub fn alloc_block(&mut self, bytes: u32, kind: Block) -> Result<u32, Trap>
        requires { 0 < bytes }
        ensures ok { IfOk result (λ at. alloc_block self.old.region self.old.blocks bytes kind ≡ Ok (at, self.new.blocks)) }
        ensures err { IfErr result (λ trap. alloc_block self.old.region self.old.blocks bytes kind ≡ Err trap) }
        ensures kept { OnErr result (self.new ≡ self.old) }
        ensures region { self.new.region ≡ self.old.region }
    {
        let Some(at) = self.region.take(bytes, kind) else {
            return Err(Trap::Memory);
        };
        let from = (at - BASE) as usize;
        clear(&mut self.memory, from, from + bytes as usize);
        Ok(at)
    }

    /// Places a block of these bytes, at least 1 of them, and gives its place.
    pub fn alloc_filled(&mut self, bytes: &[u8], kind: Block) -> Result<u32, Trap>
        requires some { 0 < length bytes.now }
        requires few { length bytes.now < 2 ^ 32 }
        ensures place { IfOk result (λ at. new_place self.old.region (spans_of self.old.blocks) (length bytes.now) ≡ Some at) }
        ensures filled { IfOk result (λ at. self.new.blocks ≡ with_block (record { at = at; kind = kind; bytes = bytes.now }) self.old.blocks) }
        ensures none { OnErr result (new_place self.old.region (spans_of self.old.blocks) (length bytes.now) ≡ None) }
        ensures trap { IfErr result (λ trap. trap ≡ Trap.Memory) }
        ensures kept { OnErr result (self.new ≡ self.old) }
        ensures region { self.new.region ≡ self.old.region }
    {
        let Some(at) = self.region.take(bytes.len() as u32, kind) else {
            return Err(Trap::Memory);
        };
        let from = (at - BASE) as usize;
        write(&mut self.memory, from, bytes);
        Ok(at)
    }

    /// Removes the block of this kind that begins at `at`; as a heap block, nil may be given back and leaves all as it is.
    pub fn free_block(&mut self, at: u32, kind: Block) -> Result<(), Trap>
        ensures ok { OnOk result (free_block self.old.blocks at kind ≡ Ok self.new.blocks) }
        ensures err { IfErr result (λ trap. free_block self.old.blocks at kind ≡ Err trap) }
        ensures kept { OnErr result (self.new ≡ self.old) }
        ensures region { self.new.region ≡ self.old.region }
    {
        if is_nil(at, kind) {
            return Ok(());
        }
        if let Err(NotThere) = self.region.give(at, kind) {
            return Err(Trap::Unalloc);
        }
        Ok(())
    }

    /// Place, size in bytes and kind of the live block with the least place not below `from`. The blocks lie one after another.
    pub fn next_block(&self, from: u32) -> Option<(u32, u32, Block)>
        ensures laid { IsLaid region_base (spans_of self.now.blocks) (region_base + self.now.region) }
        ensures next { result ≡ option_map (λ b. (b.at, b.size, b.kind)) (next_span (spans_of self.now.blocks) from) }
    {
        self.region.next_block(from)
    }
}

// Whether this is nil given back as a heap block.
fn is_nil(at: u32, kind: Block) -> bool
    ensures { result ≡ is_nil_heap at kind }
{
    at == 0 && kind == Block::Heap
}

// Where in the memory an access lies.
fn access(region: &Region, at: u32, size: u8) -> Result<usize, Trap>
    requires sound { IsSound region.now }
    requires width { IsWidth size }
    ensures { result ≡ access region.now.blocks at size }
{
    if at % u32::from(size) != 0 {
        return Err(Trap::Align);
    }
    match region.hit(at, size) {
        Some(_) => Ok((at - BASE) as usize),
        None => Err(Trap::Fault),
    }
}
