// Laws on what programs of sound types within the measures need, so that their numbers fit in words.

ghost use Rattle.al_fits.specs.Laws.{ActsFit, EntriesFit, StartsFit, StepsFit};

/// In every run of a program of sound types that is within the measures, all numbers of the private steps of each task fit in
/// words, and what the tasks ask has sizes that there are. So each entry fits where there are few entries, tasks, procs and
/// channels; and the first world does, where there are few globals and strings.
pub fn numbers_fit()
    ensures steps { StepsFit }
    ensures acts { ActsFit }
    ensures entries { EntriesFit }
    ensures starts { StartsFit }
{}
