use super::*;
use al_base::Trap;
use al_event::Block;
use std::process::Abort;

const MEBIBYTE: u32 = 0x10_0000;

fn crosses_threads<T: Send + Drop>(_value: T) {}

// What a call asks of a store, and its answer. An access is of 1, 2 or 4 bytes.
#[derive(Clone, Copy)]
enum Call {
    Load(u32, u8, Result<u32, Trap>),
    Store(u32, u8, u32, Result<(), Trap>),
    Alloc(u32, Block, Result<u32, Trap>),
    Free(u32, Block, Result<(), Trap>),
    Next(u32, Option<(u32, u32, Block)>),
}

fn run(rt: &impl Abort, store: &mut Store, calls: &[Call]) {
    for call in calls {
        match *call {
            Call::Load(at, size @ (1 | 2 | 4), answer) => {
                assert_eq!(rt; store.load(at, size), answer, "load {at:x} {size}");
            }
            Call::Store(at, size @ (1 | 2 | 4), word, answer) => {
                assert_eq!(rt; store.store(at, size, word), answer, "store {at:x} {size}");
            }
            Call::Alloc(bytes @ 1.., kind, answer) => {
                assert_eq!(rt; store.alloc_block(bytes, kind), answer, "alloc {bytes}");
            }
            Call::Free(at, kind, answer) => {
                assert_eq!(rt; store.free_block(at, kind), answer, "free {at:x}");
            }
            Call::Next(from, answer) => {
                assert_eq!(rt; store.next_block(from), answer, "next {from:x}");
            }
            _ => panic!(rt; "no such call"),
        }
    }
}

#[test]
fn accesses_at_the_edges_of_a_block(rt: HostRuntime) {
    let Ok(mut store) = Store::new(rt.alloc(), MEBIBYTE) else {
        panic!(&rt; "no memory");
    };
    let calls = [
        Call::Next(0, None),
        Call::Load(0x1000_0000, 4, Err(Trap::Fault)),
        Call::Alloc(7, Block::Heap, Ok(0x1000_0000)),
        Call::Alloc(4, Block::Global, Ok(0x1000_0008)),
        Call::Load(0x1000_0000, 4, Ok(0)),
        // the lowest byte stands first, and a store keeps the bytes beside it
        Call::Store(0x1000_0000, 4, 0x8765_4321, Ok(())),
        Call::Load(0x1000_0000, 1, Ok(0x21)),
        Call::Load(0x1000_0003, 1, Ok(0x87)),
        Call::Load(0x1000_0002, 2, Ok(0x8765)),
        Call::Store(0x1000_0002, 1, 0x1ff, Ok(())),
        Call::Load(0x1000_0000, 4, Ok(0x87ff_4321)),
        Call::Store(0x1000_0000, 2, 0xabcd_1234, Ok(())),
        Call::Load(0x1000_0000, 4, Ok(0x87ff_1234)),
        // across the end of the block of 7 bytes
        Call::Store(0x1000_0006, 1, 9, Ok(())),
        Call::Load(0x1000_0006, 1, Ok(9)),
        Call::Load(0x1000_0006, 2, Err(Trap::Fault)),
        Call::Store(0x1000_0004, 4, 1, Err(Trap::Fault)),
        Call::Load(0x1000_0007, 1, Err(Trap::Fault)),
        Call::Load(0x1000_0004, 2, Ok(0)),
        // not aligned, in a block or in none
        Call::Load(0x1000_0001, 2, Err(Trap::Align)),
        Call::Load(0x1000_0002, 4, Err(Trap::Align)),
        Call::Store(0x2000_0001, 4, 1, Err(Trap::Align)),
        Call::Load(0, 4, Err(Trap::Fault)),
        Call::Load(1, 4, Err(Trap::Align)),
        Call::Load(u32::MAX, 1, Err(Trap::Fault)),
        Call::Load(0xffff_fffc, 4, Err(Trap::Fault)),
        Call::Load(0x1000_000c, 4, Err(Trap::Fault)),
    ];
    run(&rt, &mut store, &calls);
    crosses_threads(store);
}

#[test]
fn blocks_come_and_go(rt: HostRuntime) {
    let Ok(mut store) = Store::new(rt.alloc(), MEBIBYTE) else {
        panic!(&rt; "no memory");
    };
    let calls = [
        Call::Alloc(MEBIBYTE + 1, Block::Heap, Err(Trap::Memory)),
        Call::Alloc(MEBIBYTE, Block::Heap, Ok(0x1000_0000)),
        Call::Alloc(1, Block::Frame, Err(Trap::Memory)),
        Call::Store(0x100f_fffc, 4, u32::MAX, Ok(())),
        Call::Free(0x1000_0000, Block::Frame, Err(Trap::Unalloc)),
        Call::Free(0x1000_0008, Block::Heap, Err(Trap::Unalloc)),
        Call::Free(0x1000_0000, Block::Heap, Ok(())),
        Call::Load(0x100f_fffc, 4, Err(Trap::Fault)),
        Call::Free(0x1000_0000, Block::Heap, Err(Trap::Unalloc)),
        // nil is given back in vain, and as a heap block alone
        Call::Free(0, Block::Heap, Ok(())),
        Call::Free(0, Block::Frame, Err(Trap::Unalloc)),
        Call::Free(0, Block::Global, Err(Trap::Unalloc)),
        // what was written is gone
        Call::Alloc(MEBIBYTE, Block::Frame, Ok(0x1000_0000)),
        Call::Load(0x100f_fffc, 4, Ok(0)),
        Call::Next(0, Some((0x1000_0000, MEBIBYTE, Block::Frame))),
        Call::Next(0x1000_0001, None),
    ];
    run(&rt, &mut store, &calls);
}
