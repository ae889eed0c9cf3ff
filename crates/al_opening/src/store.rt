//! The store with the blocks of globals and strings.
ghost use Rattle.std.specs.Prelude.{◌≡◌, ℕ, ◌+◌, ◌<◌, ◌^◌, List, [], ◌∷◌, ◌++◌, All, filter, map, length, IfOk, IfErr};
ghost use Rattle.al_event.specs.Store.{Live};
ghost use Rattle.al_region.specs.Region.{IsRegionSize};
ghost use Rattle.al_world.specs.Step.{with_globals, opening_shared, opening_with};
ghost use Rattle.al_typed.specs.Layout.{IsLaidOut};
ghost use Rattle.al_meaning.specs.Places as places;
ghost use Rattle.al_control.specs.Fits.{Explains};
ghost use Rattle.al_opening.specs.Opening.{GlobalFits, TextFits, OpeningFits, global_blocks, text_blocks, placed_if};

use crate::global::global_bytes;
use al_base::{NoMemory, Over, Trap};
use al_control::Unmade;
use al_event::{Block, Bytes};
use al_store::Store;
use al_typed::{Global as GlobalRow, Program};
use std::alloc::Global;

/// Places a block of these bytes; whether there is a place for it.
fn put_block(store: &mut Store, bytes: &[u8]) -> bool
    requires some { 0 < length bytes.now }
    requires few { length bytes.now < 2 ^ 32 }
    ensures placed { (rest : List (List ℕ)) → with_globals store.old.region (bytes.now ∷ rest) store.old.blocks ≡ placed_if result store.old.region rest store.new.blocks }
    ensures region { store.new.region ≡ store.old.region }
{
    match store.alloc_filled(bytes, Block::Global) {
        Ok(_) => true,
        Err(_) => false,
    }
}

// ---- globals

/// Places the block of a global, if it is shared; whether there is a place for it.
fn put_global(
    alloc: Global,
    p: &Program,
    global: &GlobalRow,
    store: &mut Store,
) -> Result<bool, Unmade>
    requires { IsLaidOut p.now.aggregates }
    ensures placed { IfOk result (λ placed. (rest : List (List ℕ)) → with_globals store.old.region (global_blocks p.now (global.now ∷ []) ++ rest) store.old.blocks ≡ placed_if placed store.old.region rest store.new.blocks) }
    ensures region { IfOk result (λ placed. store.new.region ≡ store.old.region) }
    ensures why { IfErr result (λ e. Explains e (All (GlobalFits p.now) (filter places.is_shared_global (global.now ∷ [])))) }
{
    if global.is_private {
        return Ok(true);
    }
    let bytes = global_bytes(alloc, p, global)?;
    Ok(put_block(store, &bytes))
}

/// Places the blocks of the shared ones of these globals, up to one for which there is no place; whether there is one for each.
#[tactic(auto, using(crate::proofs::Explained::kept_ones_explain))]
fn put_globals(
    alloc: Global,
    p: &Program,
    globals: &[GlobalRow],
    store: &mut Store,
) -> Result<bool, Unmade>
    requires { IsLaidOut p.now.aggregates }
    ensures placed { IfOk result (λ placed. (rest : List (List ℕ)) → with_globals store.old.region (global_blocks p.now globals.now ++ rest) store.old.blocks ≡ placed_if placed store.old.region rest store.new.blocks) }
    ensures region { IfOk result (λ placed. store.new.region ≡ store.old.region) }
    ensures why { IfErr result (λ e. Explains e (All (GlobalFits p.now) (filter places.is_shared_global globals.now))) }
{
    for global in globals {
        let placed = put_global(alloc, p, global, store)?;
        if !placed {
            return Ok(false);
        }
    }
    Ok(true)
}

// ---- strings

/// A string with a 0 behind it.
fn text_bytes(alloc: Global, text: &[u8]) -> Result<Vec<u8>, NoMemory>
    ensures { IfOk result (λ bytes. bytes.items ≡ text.now ++ 0 ∷ []) }
{
    let mut bytes = Vec::from_slice(alloc, text)?;
    bytes.push(0)?;
    Ok(bytes)
}

/// Places the block of a string; whether there is a place for it.
fn put_text(alloc: Global, text: &[u8], store: &mut Store) -> Result<bool, Unmade>
    ensures placed { IfOk result (λ placed. (rest : List (List ℕ)) → with_globals store.old.region (text_blocks (text.now ∷ []) ++ rest) store.old.blocks ≡ placed_if placed store.old.region rest store.new.blocks) }
    ensures region { IfOk result (λ placed. store.new.region ≡ store.old.region) }
    ensures why { IfErr result (λ e. Explains e (TextFits text.now)) }
{
    if text.len() >= 0xffff_ffff {
        return Err(Unmade::TooLarge);
    }
    let bytes = text_bytes(alloc, text)?;
    Ok(put_block(store, &bytes))
}

/// Places the blocks of these strings, up to one for which there is no place; whether there is one for each.
fn put_texts(alloc: Global, texts: &[Bytes], store: &mut Store) -> Result<bool, Unmade>
    ensures placed { IfOk result (λ placed. (rest : List (List ℕ)) → with_globals store.old.region (text_blocks texts.now ++ rest) store.old.blocks ≡ placed_if placed store.old.region rest store.new.blocks) }
    ensures region { IfOk result (λ placed. store.new.region ≡ store.old.region) }
    ensures why { IfErr result (λ e. Explains e (All TextFits texts.now)) }
{
    for text in texts {
        let placed = put_text(alloc, text.as_slice(), store)?;
        if !placed {
            return Ok(false);
        }
    }
    Ok(true)
}

/// Places the blocks of globals and strings, in their order, up to one for which there is no place; whether there is one for each.
fn put_blocks(alloc: Global, p: &Program, store: &mut Store) -> Result<bool, Unmade>
    requires { IsLaidOut p.now.aggregates }
    ensures placed { IfOk result (λ placed. with_globals store.old.region (places.opening_blocks p.now) store.old.blocks ≡ placed_if placed store.old.region [] store.new.blocks) }
    ensures region { IfOk result (λ placed. store.new.region ≡ store.old.region) }
    ensures why { IfErr result (λ e. Explains e (OpeningFits p.now)) }
{
    let placed = put_globals(alloc, p, p.globals.as_slice(), store)?;
    if !placed {
        return Ok(false);
    }
    let placed = put_texts(alloc, p.strings.as_slice(), store)?;
    Ok(placed)
}

// ---- the first store

/// What the first world begins with: its store, and how it is over.
#[derive(Drop)]
pub struct FirstStore {
    pub store: Store,
    pub over: Option<Over>,
}

/// The store of the first world, with the blocks of globals and strings in a region of so many bytes. Where they do not find
/// room there, the world is over and the store is empty.
///
/// The region is a whole number of MiB from 1 to 256. `Err(TooLarge)` comes only where a size of a global, or of a string, has
/// no room in a word.
pub fn opening(alloc: Global, p: &Program, region: u32) -> Result<FirstStore, Unmade>
    requires laid_out { IsLaidOut p.now.aggregates }
    requires region { IsRegionSize region }
    ensures opened { IfOk result (λ o. opening_with region (with_globals region (places.opening_blocks p.now) []) ≡ opening_shared region o.store.blocks o.over) }
    ensures region { IfOk result (λ o. o.store.region ≡ region) }
    ensures why { IfErr result (λ e. Explains e (OpeningFits p.now)) }
{
    let mut store = Store::new(alloc, region)?;
    let placed = put_blocks(alloc, p, &mut store)?;
    if placed {
        return Ok(FirstStore { store, over: None });
    }
    let store = Store::new(alloc, region)?;
    Ok(FirstStore {
        store,
        over: Some(Over::Trapped {
            trap: Trap::Memory,
            proc: 0,
            at: 0,
        }),
    })
}
