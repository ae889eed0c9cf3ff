// Laws on the meaning of programs.

ghost use Rattle.al_meaning.specs.Laws.{ComeToActions, AskAsTold, LeaveNothingOpen};

/// From every control of a task the private steps come to a turn or an action, and a task asks a Pause after 4,096 turns
/// without one: so what a task asks next is always defined.
pub fn tasks_come_to_actions()
    ensures { ComeToActions }
{}

/// What a task asks after the answers that it was given so far is what the meaning that is told the answers says: the same
/// action, in the same line, with the same private globals. The private steps of its control, from action to action, and the
/// text read clause by clause give one answer, wherever the latter gives one; and with enough rounds that is left open nowhere.
pub fn tasks_ask_as_told()
    ensures told { AskAsTold }
    ensures whole { LeaveNothingOpen }
{}
