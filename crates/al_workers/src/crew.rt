//! The workers of a round, with their passes.

ghost use Rattle.std.specs.Prelude.{◌≡◌, ◌≤◌, [], None, map, length, All, vec_capacity};
ghost use Rattle.al_workers.specs.Crew.{hired, pass_of};

use al_base::NoMemory;
use store_lock::Pass;

/// A worker: its pass, how many entries it made, and whether it met want of memory.
#[derive(Drop)]
pub struct Worker {
    pub pass: Pass,
    pub made: u64,
    pub lack: Option<NoMemory>,
}

/// A worker for each pass. It takes no memory.
pub fn hire(passes: Vec<Pass>, crew: &mut Vec<Worker>)
    requires { (crew.old.items ≡ []) × (length passes.items ≤ vec_capacity crew.old) }
    ensures { crew.new.items ≡ map hired passes.items }
{
    for pass in passes {
        crew.push_reserved(Worker {
            pass,
            made: 0,
            lack: None,
        });
    }
}

/// The passes of the workers, and whether any of these met want of memory. It takes no memory.
pub fn dismiss(crew: Vec<Worker>, passes: &mut Vec<Pass>) -> Option<NoMemory>
    requires { (passes.old.items ≡ []) × (length crew.items ≤ vec_capacity passes.old) }
    ensures passes { passes.new.items ≡ map pass_of crew.items }
    ensures lack { result ≡ None → All (λ w. w.lack ≡ None) crew.items }
{
    let mut any = None;
    for worker in crew {
        let Worker { pass, lack, .. } = worker;
        passes.push_reserved(pass);
        if lack.is_some() {
            any = lack;
        }
    }
    any
}
