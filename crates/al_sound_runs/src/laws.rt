// The laws on runs of accepted texts.

ghost use Rattle.al_sound_runs.specs.Runs.{AreNeverStuck, BlocksStand, HaveAddresses};

use al_opened::{opened_programs_have_addresses, tasks_are_never_stuck};

/// In each run of the program of a text that is accepted within the limits, in a region of at most 2^28 bytes and along every schedule, each task asks
/// what the text says, clause by clause, of a task that was given the same answers. So no task comes to what has no sense. And each address
/// that a name or a string stands for is a word there.
pub fn accepted_texts_are_never_stuck()
    ensures sense { AreNeverStuck }
    ensures addresses { HaveAddresses }
{
    opened_programs_have_addresses();
    tasks_are_never_stuck();
}

/// In the first world of the program of a text that is accepted, unless it is over, the blocks of shared globals and of strings stand
/// where the meaning of their names and constants points to, with the bytes that they start with. That world is over exactly where
/// the region has no room for them.
pub fn blocks_of_accepted_texts_stand()
    ensures { BlocksStand }
{}
