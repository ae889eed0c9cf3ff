// A law on tasks of operations.

ghost use Rattle.al_ir.specs.Laws.{ComeToActions};

/// From every control of a task the private steps come to a turn or an action, and a task asks a Pause after 4,096 turns
/// without one: so what a task of operations asks next is always defined.
pub fn operations_come_to_actions()
    ensures { ComeToActions }
{}
