// A pass may be sent to another thread, and a lock may be sent and shared where its value may be sent. The check
// proves each bound at the call here.
ghost use Rattle.std.specs.Prelude.{◌≡◌};

use crate::kept::Kept;
use crate::lock::StoreLock;
use crate::pass::Pass;

fn sent<T: Send>(x: T) -> T
    ensures { result ≡ x }
{
    x
}

fn share<T: Sync>(_x: &T) {}

pub fn send_pass(pass: Pass) -> Pass
    ensures { result ≡ pass }
{
    sent(pass)
}

pub fn send_lock<V: Kept + Send>(lock: StoreLock<V>) -> StoreLock<V>
    ensures { result ≡ lock }
{
    sent(lock)
}

pub fn share_lock<V: Kept + Send>(lock: &StoreLock<V>) {
    share(lock)
}
