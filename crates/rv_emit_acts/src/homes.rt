//! Slots of a function.

ghost use Rattle.std.specs.Prelude.{◌≡◌, ◌<◌, ◌^◌};
ghost use Rattle.rv_regs.specs.Homes.{home_at};
ghost use Rattle.rv_emit.specs.Near.{IsNear};

use rv_code::Home;
use rv_regs::Homes;

/// The home of a slot.
#[tactic(auto, using(crate::proofs::Nearness::near_of))]
pub fn home_of(homes: &Homes, slot: u32) -> Home
    requires { slot < 2 ^ 20 }
    ensures value { result ≡ home_at homes.now slot }
    ensures near { IsNear result }
{
    homes.home(slot)
}
