// Laws on the environment of a text.

ghost use Rattle.al_sound_environment.specs.Constants.{ConstantsAreWithin};
ghost use Rattle.al_sound_environment.specs.Members.{MembersAreSound};
ghost use Rattle.al_sound_environment.specs.Whole.{EnvironmentIsSound};
ghost use Rattle.al_sound_environment.specs.Tells.{EnvironmentTells};

/// The values of enum constants have no more bits than their kinds.
pub fn constants_are_within()
    ensures { ConstantsAreWithin }
{}

/// Members and functions by their names lead to members and to objects.
pub fn members_are_sound()
    ensures { MembersAreSound }
{}

/// The types of the environment of a text are sound, and its rows are laid out.
pub fn environment_is_sound()
    ensures { EnvironmentIsSound }
{}

/// The environment of a text tells of any names with its types.
pub fn environment_tells()
    ensures { EnvironmentTells }
{}
