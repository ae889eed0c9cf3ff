// What a worker does in a turn.
ghost use Rattle.std.specs.Prelude.{◌≡◌, ◌++◌, ◌∷◌, [], Some, None, OnOk, OnErr};
ghost use Rattle.store_lock.specs.Passes.{pass_number, own, loan, turn_value, IsMember};
ghost use Rattle.lock_trial.specs.DeskValue.{desk_lent, entry};
ghost use Rattle.lock_trial.specs.DeskMemo.{desk_memo};
ghost use Rattle.lock_trial.specs.Working.{HasJustTaken};

use crate::desk::Desk;
use al_base::NoMemory;
use al_event::Loan;
use store_lock::{Pass, StoreLock, Turn};

/// Lends to the pass's worker, and gives the turn up.
pub fn lend(lock: &StoreLock<Desk>, mut turn: Turn<Desk>, pass: &mut Pass, proc: u32) -> Loan
    requires { HasJustTaken lock.now pass.old turn }
    ensures pass { IsMember desk_memo lock.now (pass_number pass.old) pass.new }
    ensures own { own pass.new ≡ own pass.old }
    ensures loan { loan pass.new ≡ Some result }
    ensures proc { result.proc ≡ proc }
{
    let lent = turn.get_mut().lend(proc, pass.number());
    lock.free(turn, pass);
    lent
}

/// Takes back what was lent to the pass's worker, adds an entry in its name, and gives the turn up.
pub fn settle(
    lock: &StoreLock<Desk>,
    mut turn: Turn<Desk>,
    pass: &mut Pass,
    lent: Loan,
) -> Result<(), NoMemory>
    requires taken { HasJustTaken lock.now pass.old turn }
    requires lent { desk_lent (turn_value turn) (pass_number pass.old) ≡ Some lent }
    ensures pass { IsMember desk_memo lock.now (pass_number pass.old) pass.new }
    ensures ok { OnOk result ((own pass.new ≡ own pass.old ++ entry lent.proc (pass_number pass.old) ∷ []) × (loan pass.new ≡ None)) }
    ensures err { OnErr result ((own pass.new ≡ own pass.old) × (loan pass.new ≡ Some lent)) }
{
    let answer = turn.get_mut().settle(lent, pass.number());
    lock.free(turn, pass);
    answer
}
