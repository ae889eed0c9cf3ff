//! A world goes to other threads.

ghost use Rattle.std.specs.Prelude.{◌≡◌};

use crate::world::World;

fn goes<T: Send>(x: T) -> T
    ensures { result ≡ x }
{
    x
}

/// A world may go to another thread.
pub fn world_goes(world: World) -> World
    ensures { result ≡ world }
{
    goes(world)
}
