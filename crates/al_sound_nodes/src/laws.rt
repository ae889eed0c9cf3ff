// Laws on the typing rules.

ghost use Rattle.al_sound_nodes.specs.Nodes.{NodesAreSound};
ghost use Rattle.al_sound_nodes.specs.Callees.{CalleesAreSound};

/// What names and members are, and what their uses make of them, is well typed.
pub fn nodes_are_sound()
    ensures { NodesAreSound }
{}

/// What is called is well typed.
pub fn callees_are_sound()
    ensures { CalleesAreSound }
{}
