// Laws over every schedule, for any kind of control.

ghost use Rattle.std.specs.Prelude.{ℕ, List, nat_eq};
ghost use Rattle.al_event.specs.declared.act.Start.{Start};
ghost use Rattle.al_world.specs.Channels.{Book};
ghost use Rattle.al_world.specs.Control.{kind_of};
ghost use Rattle.al_world.specs.Procs.{ProcState};
ghost use Rattle.al_world.specs.World.{TaskName, TalkName, same_task, same_talker};
ghost use Rattle.al_world.specs.Renamed.{AgreeInWaiting, AgreeInParents, TalksAreRenamed, ProcsAreRenamed};
ghost use Rattle.al_world.specs.Alike.{SimulatesFrom};
ghost use Rattle.al_world.specs.Transfers.{IsInOrder, IsOnce, IsOnceGone, IsTaken, IsLeftOrStays, IsEqualAtBothEnds};
ghost use Rattle.al_world.specs.Answers.{AnswersFit};
ghost use Rattle.al_world.specs.Permitted.{IsDoneInRange, StepsWherePermitted, RunsGoOn, RunsGoThrough, IsNeverSpent};
ghost use Rattle.al_world.specs.Laws.{IsDetermined, IsBlindToWorkers, IsLocalAlong, IsLocalEverywhere, IsReadyToGo, IsStillLent};

use crate::tasks::{Matches, Proper, Tasks};

/// A schedule has at most one run, and which worker made an entry has no part in it.
pub fn schedules_determine_runs<K: Tasks>()
    ensures one_run { IsDetermined (kind_of K.ask K.resume K.start K.fresh) }
    ensures workers { IsBlindToWorkers (kind_of K.ask K.resume K.start K.fresh) }
{}

/// Tasks that correspond one by one have the same runs, under every schedule.
pub fn runs_are_alike<K: Matches<L>, L: Tasks>()
    ensures { (start : Start) → K.relation.IsStart start → SimulatesFrom (kind_of K.ask K.resume K.start K.fresh) (kind_of L.ask L.resume L.start L.fresh) start }
{}

/// In each world that a run comes to, an entry of one proc leaves, of each other proc, the first ready task, its control
/// and the private globals; and so do all entries of other procs that follow. So what was lent of a proc after the first
/// entries is still what the run has, as long as no later entry is of that proc.
pub fn entries_are_local<K: Tasks>()
    ensures along { IsLocalAlong (kind_of K.ask K.resume K.start K.fresh) }
    ensures entry { IsLocalEverywhere (kind_of K.ask K.resume K.start K.fresh) }
    ensures lent { IsStillLent (kind_of K.ask K.resume K.start K.fresh) }
{}

/// There is a world after an entry exactly where the world is not over, the proc has a ready task, and the pick is in the
/// range of its next action. A run along one schedule after another goes on from where the first came to.
pub fn entries_are_permitted_in_range<K: Tasks>()
    ensures action { IsDoneInRange }
    ensures entry { StepsWherePermitted (kind_of K.ask K.resume K.start K.fresh) }
    ensures through { RunsGoThrough (kind_of K.ask K.resume K.start K.fresh) }
    ensures along { RunsGoOn (kind_of K.ask K.resume K.start K.fresh) }
    ensures spent { IsNeverSpent (kind_of K.ask K.resume K.start K.fresh) }
{}

/// In each world that a run comes to and that is not over, the first ready task of a proc goes on.
pub fn ready_tasks_go<K: Tasks>()
    ensures { IsReadyToGo (kind_of K.ask K.resume K.start K.fresh) }
{}

/// In each world that a run comes to, the values put into a channel are those got from it, in that order, followed by what
/// it holds or held when it was given up.
pub fn channels_are_in_order<K: Tasks>()
    ensures { IsInOrder (kind_of K.ask K.resume K.start K.fresh) }
{}

/// Each talk stands in what went at most once along a run, and exactly once where it did not trap and its task went on. A
/// talk that neither traps nor blocks takes the pair that was picked. Each branch that waits stays in the waiting list until
/// its task's talk goes on by one branch: then that talk stands in what went, and all branches of the task have left.
pub fn talks_go_once<K: Tasks>()
    ensures once { IsOnce (kind_of K.ask K.resume K.start K.fresh) }
    ensures gone { IsOnceGone (kind_of K.ask K.resume K.start K.fresh) }
    ensures taken { IsTaken }
    ensures waits { IsLeftOrStays }
{}

/// The words of a transfer on an unbuffered channel are what the sender asked to send, and what the receiver is answered
/// with.
pub fn transfers_are_equal_at_both_ends()
    ensures { IsEqualAtBothEnds }
{}

/// In each world that a run comes to, each answer is one that its action can have: the word of a load has the size that was
/// asked, a talk is answered with the number of one of its branches and with as many words as that branch receives, and all
/// words have 32 bits. For kinds of control that send as many words as a branch says.
pub fn answers_fit_their_actions<K: Proper>()
    ensures { AnswersFit (kind_of K.ask K.resume K.start K.fresh) K.propriety }
{}

/// What a task is called by does not matter: channels, talks and ready lists over slots do what those over names do, as long
/// as slots differ where the names differ.
pub fn slots_do_as_names()
    ensures talks { (name_of : ℕ → TalkName) (book : Book ℕ) → AgreeInWaiting name_of nat_eq same_talker book.waiting → TalksAreRenamed name_of nat_eq same_talker book }
    ensures procs { (name_of : ℕ → TaskName) (proc_of : ℕ → ℕ) (procs : List (ProcState ℕ)) → AgreeInParents name_of nat_eq same_task proc_of (λ u. u.proc) procs → ProcsAreRenamed name_of nat_eq same_task proc_of (λ u. u.proc) procs }
{}
