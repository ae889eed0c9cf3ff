// The laws on worlds that have opened.

ghost use Rattle.al_opened.specs.Opened.{HaveAddresses, HaveSense};

use al_lowering::lowering_keeps_the_meaning;

/// Where the first world of a program has room for its globals and strings, each address that a name or a string stands for is a word.
pub fn opened_programs_have_addresses()
    ensures { HaveAddresses }
{
    lowering_keeps_the_meaning();
}

/// In each run of a well-typed program, in a region of at most 2^28 bytes and along every schedule, each task asks what the text says, clause by
/// clause, of a task that was given the same answers. So no task comes to what has no sense.
pub fn tasks_are_never_stuck()
    ensures { HaveSense }
{
    lowering_keeps_the_meaning();
}
