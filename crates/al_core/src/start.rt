//! The first world of an image.

ghost use Rattle.std.specs.Prelude.{◌≡◌, ◌*◌, ◌≤◌, ◌^◌, [], IfOk, IfSome, IfNone, IsTrue, None, true, length, is_none, replicate, slice_get};
ghost use Rattle.std.specs.List.{list_all};
ghost use Rattle.al_world.specs.Step.{with_globals, opening_with};
ghost use Rattle.al_store.specs.Memory.{Contents as StoreContents};
ghost use Rattle.rv_isa.specs.Image.{IsWithin, is_global};
ghost use Rattle.al_core.specs.Opening.{globals_from, globals_of, main_of};
ghost use Rattle.al_core.specs.Placing.{Placed};
ghost use Rattle.al_core.specs.FirstTask.{BeginsMain};
ghost use Rattle.al_core.specs.History.{opening};
ghost use Rattle.al_region.specs.Region.{IsRegionSize};
ghost use Rattle.al_world.specs.Procs.{most_tasks};

use crate::limits::Limits;
use crate::machinery::Machinery;
use crate::turn::MOST_TASKS;
use crate::world::World;
use al_base::{NoMemory, Over, Trap};
use al_event::Block;
use al_store::Store;
use chan_book::Book;
use rv_exec::{Hart, Privates};
use rv_isa::image::{Contents, Image};
use std::alloc::Global;
use std::sync::Arc;
use task_book::Tasks;

/// The bytes of a MiB.
const MEBIBYTE: u32 = 1 << 20;

/// Places blocks of zeros of these sizes, and gives their places; none where one has no place.
fn put_blocks(alloc: Global, store: &mut Store, sizes: &[u32]) -> Result<Option<Vec<u32>>, NoMemory>
    requires empty { store.old.blocks ≡ [] }
    requires sizes { IsTrue (list_all is_global sizes.now) }
    ensures placed { IfOk result (λ places. IfSome places (λ places. Placed store.old.region (globals_from [] 0 sizes.now) places.items [] store.new.blocks)) }
    ensures none { IfOk result (λ places. IfNone places (with_globals store.old.region (globals_from [] 0 sizes.now) [] ≡ None)) }
    ensures region { store.new.region ≡ store.old.region }
{
    let mut places = Vec::with_capacity(alloc, sizes.len())?;
    for size in sizes {
        match store.alloc_block(*size, Block::Global) {
            Ok(at) => places.push(at)?,
            Err(_) => return Ok(None),
        }
    }
    Ok(Some(places))
}

/// Writes the values of all items into the blocks of their globals.
fn put_items(store: &mut Store, places: &[u32], image: &Contents)
    requires within { IsWithin image.now }
    requires region { store.old.region ≤ 2 ^ 28 }
    requires placed { Placed store.old.region (globals_from [] 0 image.now.globals) places.now [] store.old.blocks }
    ensures placed { Placed store.old.region (globals_of image.now) places.now [] store.new.blocks }
    ensures region { store.new.region ≡ store.old.region }
{
    for item in image.items.as_slice() {
        let at = places[item.global as usize] + item.offset;
        match store.store(at, item.size, item.value) {
            Ok(()) => {}
            Err(_) => unreachable!(),
        }
    }
}

/// A store with the blocks of all globals. None where one has no place.
fn store_of(alloc: Global, image: &Contents, bytes: u32) -> Result<Option<Store>, NoMemory>
    requires within { IsWithin image.now }
    requires size { IsRegionSize bytes }
    ensures region { IfOk result (λ store. IfSome store (λ store. store.region ≡ bytes)) }
    ensures some { IfOk result (λ store. IfSome store (λ store. with_globals bytes (globals_of image.now) [] ≡ Some store.blocks)) }
    ensures none { IfOk result (λ store. IfNone store (with_globals bytes (globals_of image.now) [] ≡ None)) }
{
    let mut store = Store::new(alloc, bytes)?;
    match put_blocks(alloc, &mut store, image.globals.as_slice())? {
        Some(places) => {
            put_items(&mut store, places.as_slice(), image);
            Ok(Some(store))
        }
        None => Ok(None),
    }
}

/// A table with the one task that runs main.
fn main_task(alloc: Global, image: &Image) -> Result<Tasks, NoMemory>
    ensures { IfOk result (λ tasks. BeginsMain image.now tasks) }
{
    let contents = image.contents();
    let words = match contents.functions.get(contents.main as usize) {
        Some(row) => row.words,
        None => 0,
    };
    let zeros = [0; 2];
    let hart = Hart::start(alloc, image, contents.main, &zeros[..words as usize])?;
    let privates = Privates::new(alloc, image)?;
    let mut tasks = Tasks::new(alloc, MOST_TASKS)?;
    match tasks.start_proc(None, hart, privates) {
        Ok(_) => Ok(tasks),
        Err(_) => unreachable!(),
    }
}

/// The parts of the first world, and how it is over, if it is: where the globals do not fit, the store is empty.
fn first_parts(
    alloc: Global,
    image: &Image,
    bytes: u32,
) -> Result<(Machinery, Option<Over>), NoMemory>
    requires { IsRegionSize bytes }
    ensures store { IfOk result (λ parts. parts.0.store ≡ record { region = bytes; blocks = (opening_with bytes (with_globals bytes (globals_of image.now) [])).store }) }
    ensures over { IfOk result (λ parts. parts.1 ≡ (opening_with bytes (with_globals bytes (globals_of image.now) [])).over) }
    ensures book { IfOk result (λ parts. parts.0.book ≡ record { room = most_tasks; book = record { channels = []; waiting = [] } }) }
    ensures table { IfOk result (λ parts. BeginsMain image.now parts.0.table) }
    ensures output { IfOk result (λ parts. parts.0.output ≡ []) }
    ensures within { IfOk result (λ parts. IsWithin image.now) }
{
    let (store, over) = match store_of(alloc, image.contents(), bytes)? {
        Some(store) => (store, None),
        None => (
            Store::new(alloc, bytes)?,
            Some(Over::Trapped {
                trap: Trap::Memory,
                proc: 0,
                at: 0,
            }),
        ),
    };
    let machinery = Machinery {
        store,
        book: Book::new(alloc, MOST_TASKS)?,
        tasks: main_task(alloc, image)?,
        output: Vec::new(alloc),
    };
    Ok((machinery, over))
}

impl World {
    /// The first world of an image, with a region of 1 to 256 MiB, for at most 2^26 entries. It makes room for all entries,
    /// blocks and tasks.
    pub fn start(alloc: Global, image: Arc<Image>, limits: Limits) -> Result<World, NoMemory>
        requires some_region { 1 ≤ limits.region }
        requires region { limits.region ≤ 256 }
        requires entries { limits.entries ≤ 2 ^ 26 }
        ensures { IfOk result (λ world. world ≡ opening image.value limits.region limits.entries) }
    {
        let (machinery, over) = first_parts(alloc, &image, limits.region * MEBIBYTE)?;
        let entries = Vec::with_capacity(alloc, limits.entries as usize)?;
        Ok(World {
            alloc,
            image,
            region: limits.region,
            limit: limits.entries,
            quota: limits.entries,
            machinery,
            entries,
            dropped: 0,
            over,
            line: 0,
            work: 0,
            loans: [None; 64],
        })
    }
}
