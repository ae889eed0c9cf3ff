// A worker's part in a lock.
ghost use Rattle.std.specs.Prelude.{◌≡◌};

use crate::known::View;
use atomic_table::Badge;
use std::snapshot::Snapshot;

/// A worker's part in a lock: its number, the entries that it made, the longest history that it has seen and what is
/// lent to it. At run time it is the number alone.
#[derive(Drop)]
pub struct Pass {
    pub(crate) number: u8,
    // The seat. A blank stands here while the turn is held, since the turn has the seat then.
    pub(crate) badge: Badge<View>,
    // The seat as it was when the pass last held no turn.
    pub(crate) known: Snapshot<Badge<View>>,
}

impl Pass {
    ghost use Rattle.std.specs.Prelude.{◌≡◌};
    ghost use Rattle.store_lock.specs.Passes.{pass_number, IsAtRest, known_badge};

    pub(crate) fn new(number: u8, badge: Badge<View>) -> Pass
        ensures number { pass_number result ≡ number }
        ensures rests { IsAtRest result }
        ensures badge { known_badge result ≡ badge }
    {
        let known = Snapshot::of(&badge);
        Pass {
            number,
            badge,
            known,
        }
    }

    pub(crate) fn into_badge(self) -> Badge<View>
        requires { IsAtRest self }
        ensures { result ≡ known_badge self }
    {
        self.badge
    }

    /// The number that its worker's entries carry, from 0.
    pub fn number(&self) -> u8
        ensures { result ≡ pass_number self.now }
    {
        self.number
    }
}
