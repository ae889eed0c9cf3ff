// Workers with their passes.
ghost use Rattle.std.specs.Prelude.{◌≡◌, ◌≤◌, [], map, length, vec_capacity};
ghost use Rattle.lock_trial.specs.Crew.{hired, pass_of};

use store_lock::Pass;

/// A pass, how many entries its worker made, and whether it met want of memory.
#[derive(Drop)]
pub struct Worker {
    pub pass: Pass,
    pub made: u32,
    pub failed: bool,
}

/// A worker for each pass. It takes no memory.
pub fn hire(passes: Vec<Pass>, crew: &mut Vec<Worker>)
    requires { (crew.old.items ≡ []) × (length passes.items ≤ vec_capacity crew.old) }
    ensures { crew.new.items ≡ map hired passes.items }
{
    for pass in passes {
        crew.push_reserved(Worker {
            pass,
            made: 0,
            failed: false,
        });
    }
}

/// The passes of the workers. It takes no memory.
pub fn dismiss(crew: Vec<Worker>, passes: &mut Vec<Pass>)
    requires { (passes.old.items ≡ []) × (length crew.items ≤ vec_capacity passes.old) }
    ensures { passes.new.items ≡ map pass_of crew.items }
{
    for worker in crew {
        passes.push_reserved(worker.pass);
    }
}
