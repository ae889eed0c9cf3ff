//! Where workers sleep that find nothing to do, and the word by which they are told to stop.

use al_event::Act;
use crossbeam_utils::atomic::AtomicCell;
use std::sync::Wait;
use std::sync::atomic::{AtomicU64, Ordering};

/// Where workers sleep while each proc with a ready task is away. A worker first enters, then looks once more, and sleeps
/// unless it was called since it entered: so no call is lost.
#[derive(Drop)]
pub struct Rest {
    /// A worker met want of memory, and all are to stop.
    stopped: AtomicCell<bool>,
    /// How many workers have entered.
    inside: AtomicU64,
    /// How often those inside were called.
    calls: AtomicU64,
}

impl Rest {
    pub fn new() -> Rest {
        Rest {
            stopped: AtomicCell::new(false),
            inside: AtomicU64::new(0),
            calls: AtomicU64::new(0),
        }
    }

    /// Tells all workers to stop.
    pub fn stop(&self) {
        self.stopped.store(true);
    }

    pub fn is_stopped(&self) -> bool {
        self.stopped.load()
    }

    /// It gives how often those inside were called by now.
    pub fn enter(&self) -> u64 {
        self.inside.fetch_add(1, Ordering::SeqCst);
        self.calls.load(Ordering::SeqCst)
    }

    pub fn leave(&self) {
        self.inside.fetch_sub(1, Ordering::SeqCst);
    }

    /// Sleeps unless there was a call since `seen`. It may also return for no reason.
    pub fn sleep<R: Wait>(&self, rt: &R, seen: u64) {
        self.calls.park(rt, (seen % (1 << 32)) as u32);
    }

    /// Calls as many of those inside as may find a proc once such an action was done.
    pub fn call_for(&self, woken: Woken) {
        match woken {
            Woken::Nobody => {}
            Woken::One => {
                if self.is_anyone_inside() {
                    self.calls.fetch_add(1, Ordering::SeqCst);
                    self.calls.wake_one();
                }
            }
            Woken::All => self.call_all(),
        }
    }

    pub fn call_all(&self) {
        if self.is_anyone_inside() {
            self.calls.fetch_add(1, Ordering::SeqCst);
            self.calls.wake_all();
        }
    }

    fn is_anyone_inside(&self) -> bool {
        self.inside.load(Ordering::SeqCst) > 0
    }
}

/// How many workers that sleep may find a proc once an action was done.
#[derive(Clone, Copy, Debug, PartialEq, Eq)]
pub enum Woken {
    Nobody,
    One,
    All,
}

/// An action starts procs, or makes a task of another proc ready, or does neither.
pub fn woken_by(act: &Act) -> Woken {
    match act {
        Act::Par { .. } => Woken::All,
        Act::Proc { .. } | Act::Talk { .. } | Act::End => Woken::One,
        _ => Woken::Nobody,
    }
}
