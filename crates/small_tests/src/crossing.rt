//! What is held under the lock may go from one worker to another.

use al_base::NoMemory;
use al_event::{Act, Branch, Branches, Bytes, Entry, Loan, Start, Starts, Words};
use al_items::Items;
use std::alloc::Global;
use task_book::Tasks;

/// Lets a value go that may be sent to another thread.
fn crosses_threads<T: Send + Drop>(_value: T) {}

fn no_words(alloc: Global) -> Words {
    Items::new(alloc)
}

#[test]
fn all_may_go_to_another_worker(rt: HostRuntime) {
    let alloc = rt.alloc();
    let entry = Entry {
        proc: 0,
        pick: 0,
        worker: 0,
    };
    crosses_threads(entry);
    crosses_threads(Loan { proc: 0, since: 0 });
    crosses_threads(Branch {
        chan: 1,
        words: 0,
        send: Some(no_words(alloc)),
    });
    crosses_threads(Start {
        code: 0,
        words: no_words(alloc),
    });
    let branches: Branches = Items::new(alloc);
    let starts: Starts = Items::new(alloc);
    let bytes: Bytes = Items::new(alloc);
    crosses_threads(Act::Talk { branches });
    crosses_threads(Act::Par { starts });
    crosses_threads(Act::Print { text: bytes });
}

#[test]
fn empty_table_crosses_threads(rt: HostRuntime) -> Result<(), NoMemory> {
    let tasks = Tasks::new(rt.alloc(), 4)?;
    assert_eq!(rt; tasks.most(), 4);
    assert_eq!(rt; tasks.live(), 0);
    assert_eq!(rt; tasks.any_ready(), false);
    assert_eq!(rt; tasks.ready_proc(), None);
    assert_eq!(rt; tasks.first(0), None);
    assert_eq!(rt; tasks.is_away(0), false);
    crosses_threads(tasks);
    Ok(())
}
