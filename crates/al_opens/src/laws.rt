// The law on the first world of a program.

ghost use Rattle.al_opens.specs.Standing.{BlocksStand, OpensWhereRoom};

/// In the first world of a program of sound types, unless it is over, the block of each shared global and of each string stands
/// where the meaning of its name or constant points to. Its bytes are those that it starts with, and each load of them reads these.
/// There are no other blocks, and none overlaps another. That world is over exactly where the region has no room for them.
pub fn blocks_stand()
    ensures stand { BlocksStand }
    ensures room { OpensWhereRoom }
{}
