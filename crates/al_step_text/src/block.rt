//! Blocks of the store.
ghost use Rattle.std.specs.Prelude.{◌≡◌, ◌++◌, ◌≤◌, OnOk};
ghost use Rattle.std.specs.List.{flat_map};
ghost use Rattle.al_step_text.specs.StepText as spec;

use al_base::NoMemory;
use al_event::{Block, Bytes};
use al_store::Store;
use al_value_text::{put_decimal, put_pointer};
use std::alloc::Global;

fn put_kind(out: &mut Bytes, kind: Block) -> Result<(), NoMemory>
    ensures { OnOk result (out.new ≡ out.old ++ spec.kind_name kind) }
{
    match kind {
        Block::Heap => out.extend_from_slice(b"heap"),
        Block::Frame => out.extend_from_slice(b"frame"),
        Block::Global => out.extend_from_slice(b"global"),
    }
}

fn put_block(
    alloc: Global,
    out: &mut Bytes,
    at: u32,
    size: u32,
    kind: Block,
) -> Result<(), NoMemory>
    ensures { OnOk result (out.new ≡ out.old ++ spec.span_line (record { at = at; size = size; kind = kind })) }
{
    out.extend_from_slice(b"block ")?;
    put_pointer(alloc, out, u64::from(at))?;
    out.extend_from_slice(b" ")?;
    put_decimal(out, u64::from(size))?;
    out.extend_from_slice(b" ")?;
    put_kind(out, kind)?;
    out.extend_from_slice(b"\n")
}

/// Puts the lines of the blocks by their places.
pub(crate) fn put_blocks(alloc: Global, out: &mut Bytes, store: &Store) -> Result<(), NoMemory>
    ensures { OnOk result (out.new ≡ out.old ++ flat_map spec.block_line store.now.blocks) }
{
    let mut from = 0;
    while let Some(block) = store.next_block(from) {
        let (at, size, kind) = block;
        put_block(alloc, out, at, size, kind)?;
        from = at + 1;
    }
    Ok(())
}
