use super::*;
use al_event::Block;
use std::process::Abort;
use std::test::Fail;

const MEBIBYTE: u32 = 0x10_0000;

fn crosses_threads<T: Send + Drop>(_value: T) {}

// What a call asks of a region, and its answer. A take is of a heap block.
#[derive(Clone, Copy)]
enum Call {
    Take(u32, Option<u32>),
    Give(u32, Block, Result<(), NotThere>),
    Hit(u32, u8, Option<u32>),
    Next(u32, Option<(u32, u32, Block)>),
}

fn run(rt: &impl Abort, region: &mut Region, calls: &[Call]) {
    for call in calls {
        match *call {
            Call::Take(0, _) | Call::Hit(_, 0, _) => panic!(rt; "a call for no byte"),
            Call::Take(bytes, place) => {
                assert_eq!(rt; region.take(bytes, Block::Heap), place, "take {bytes}");
            }
            Call::Give(at, kind, answer) => {
                assert_eq!(rt; region.give(at, kind), answer, "give {at:x}");
            }
            Call::Hit(at, size, block) => {
                assert_eq!(rt; region.hit(at, size), block, "hit {at:x} {size}");
            }
            Call::Next(from, block) => {
                assert_eq!(rt; region.next_block(from), block, "next {from:x}");
            }
        }
    }
}

#[test]
fn a_new_block_goes_to_the_least_place(rt: HostRuntime) -> Result<(), Fail> {
    let Ok(mut region) = Region::new(rt.alloc(), MEBIBYTE) else {
        panic!(&rt; "no memory");
    };
    let calls = [
        Call::Take(4, Some(0x1000_0000)),
        Call::Take(16, Some(0x1000_0008)),
        Call::Take(8, Some(0x1000_0018)),
        Call::Give(0x1000_0008, Block::Heap, Ok(())),
        Call::Take(17, Some(0x1000_0020)),
        Call::Take(16, Some(0x1000_0008)),
        Call::Give(0x1000_0009, Block::Heap, Err(NotThere)),
        Call::Hit(0x1000_0018, 4, Some(0x1000_0018)),
    ];
    run(&rt, &mut region, &calls);
    crosses_threads(region);
    Ok(())
}

#[test]
fn a_region_is_filled_to_its_last_byte(rt: HostRuntime) -> Result<(), Fail> {
    let Ok(mut region) = Region::new(rt.alloc(), MEBIBYTE) else {
        panic!(&rt; "no memory");
    };
    let calls = [
        Call::Next(0, None),
        Call::Take(MEBIBYTE + 1, None),
        Call::Take(u32::MAX, None),
        Call::Take(MEBIBYTE - 8, Some(0x1000_0000)),
        Call::Take(9, None),
        Call::Take(8, Some(0x100f_fff8)),
        Call::Take(1, None),
        // the last byte, and past it
        Call::Hit(0x100f_ffff, 1, Some(0x100f_fff8)),
        Call::Hit(0x1010_0000, 1, None),
        Call::Hit(0x100f_fffe, 4, None),
        Call::Hit(u32::MAX, 4, None),
        Call::Hit(0, 1, None),
        // across the end of the first block
        Call::Hit(0x100f_fff7, 1, Some(0x1000_0000)),
        Call::Hit(0x100f_fff7, 2, None),
        Call::Hit(0x100f_fff6, 2, Some(0x1000_0000)),
        Call::Hit(0x100f_fff6, 4, None),
        Call::Give(0x1000_0000, Block::Frame, Err(NotThere)),
        Call::Give(0x1000_0000, Block::Global, Err(NotThere)),
        Call::Next(0, Some((0x1000_0000, MEBIBYTE - 8, Block::Heap))),
        Call::Next(0x1000_0001, Some((0x100f_fff8, 8, Block::Heap))),
        Call::Next(0x100f_fff9, None),
        Call::Give(0x1000_0000, Block::Heap, Ok(())),
        Call::Give(0x100f_fff8, Block::Heap, Ok(())),
        Call::Take(MEBIBYTE, Some(0x1000_0000)),
        Call::Take(1, None),
    ];
    run(&rt, &mut region, &calls);
    Ok(())
}

#[test]
fn no_more_than_65536_blocks_live(rt: HostRuntime) -> Result<(), Fail> {
    let Ok(mut region) = Region::new(rt.alloc(), 256 * MEBIBYTE) else {
        panic!(&rt; "no memory");
    };
    for k in 0..65_536u32 {
        assert_eq!(&rt; region.take(8, Block::Heap), Some(0x1000_0000 + 8 * k));
    }
    assert_eq!(&rt; region.take(8, Block::Heap), None);
    // every other block, and then one between two of them
    for k in 0..32_768u32 {
        assert_eq!(&rt; region.give(0x1000_0008 + 16 * k, Block::Heap), Ok(()));
    }
    let calls = [
        Call::Take(9, Some(0x1007_fff8)),
        Call::Give(0x1000_0320, Block::Heap, Ok(())),
        Call::Take(24, Some(0x1000_0318)),
    ];
    run(&rt, &mut region, &calls);
    Ok(())
}
