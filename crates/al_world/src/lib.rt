// The world that a schedule runs in, and laws over every schedule. The definitions are in specs/; the functions here do
// nothing, and their contracts are the laws.
#![tactic(auto)]

mod laws;
mod tasks;

pub use laws::{
    answers_fit_their_actions, channels_are_in_order, entries_are_local,
    entries_are_permitted_in_range, ready_tasks_go, runs_are_alike, schedules_determine_runs,
    slots_do_as_names, talks_go_once, transfers_are_equal_at_both_ends,
};
pub use tasks::{Matches, Proper, Tasks};
