//! Two workers are outside the lock at one time.

use crate::programs::STORES;
use crate::running::run_by;
use al_base::NoMemory;
use al_rounds::Gate;
use crossbeam_utils::atomic::AtomicCell;
use rv_exec::{Asked, Held, stretch};
use rv_isa::image::Image;
use std::alloc::Global;
use std::test::*;

/// Holds a worker that has made an entry, until two workers are inside at one time.
#[derive(Drop)]
struct Meeting {
    inside: AtomicCell<u32>,
    met: AtomicCell<bool>,
    failed: AtomicCell<bool>,
}

impl Gate for Meeting {
    fn stretch(
        &self,
        alloc: Global,
        image: &Image,
        _worker: u8,
        entries: u64,
        held: Held,
    ) -> Result<Asked, (Held, NoMemory)> {
        if self.inside.fetch_add(1) == 1 {
            self.met.store(true);
        }
        if entries > 0 {
            for _ in 0u32..1 << 30 {
                if self.met.load() {
                    break;
                }
            }
            if !self.met.load() {
                self.failed.store(true);
                self.met.store(true);
            }
        }
        let asked = stretch(alloc, image, held);
        self.inside.fetch_sub(1);
        asked
    }
}

/// A round on one worker, workers that take turns, and a turn that is held round a stretch never have two workers inside.
#[test]
fn two_workers_meet(rt: HostRuntime) -> Result<(), NoMemory> {
    let gate = Meeting {
        inside: AtomicCell::new(0),
        met: AtomicCell::new(false),
        failed: AtomicCell::new(false),
    };
    let world = run_by(&rt, rt.alloc(), &STORES, 2, 64, &gate)?;
    assert_eq!(&rt; world.entries().len(), 64);
    assert!(&rt; gate.met.load(), "no two workers were inside");
    assert!(&rt; !gate.failed.load(), "a worker was held in vain");
    for worker in 0..2 {
        assert!(&rt;
            world.entries().iter().any(|entry| entry.worker == worker),
            "worker {worker}"
        );
    }
    Ok(())
}
