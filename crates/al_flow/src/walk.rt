//! What is found in a function so far.
ghost use Rattle.al_flow.specs.Rules as rule;
ghost use Rattle.std.specs.Prelude.{◌≡◌};

use crate::around::{Enclosing, Outside, count_of, has_targets, loops_in, stays_inside};
use crate::mark::{Mark, is_new_label, is_new_rescue};
use crate::marks::Marks;
use crate::target::Target;
use crate::targets::Targets;
use al_base::{NoMemory, Place};
use al_items::Items;
use al_rules::{TypeFault, ask};

/// What is found so far, at some point of a function or par branch.
#[derive(Drop)]
pub struct Walk {
    /// The labels and rescues before this point.
    pub passed: Marks,
    /// The closest earlier rescue, to which a raise goes from here.
    pub closest: Option<u64>,
    /// What is round this point.
    pub around: Items<Enclosing>,
    /// How much of this is round the branch at hand.
    pub outside: Outside,
    pub targets: Targets,
    pub faults: Items<TypeFault>,
}

const MOST_BRANCHES: usize = 64;

#[tactic(auto, unfolding(crate::specs::Rules::has_branches))]
fn has_branches(n: usize) -> bool
    ensures { result ≡ rule.has_branches n }
{
    1 <= n && n <= MOST_BRANCHES
}

impl Walk {
    ghost use Rattle.std.specs.Prelude.{◌≡◌, ◌++◌, Some, OnOk};
    ghost use Rattle.al_rules.specs.Outcome.{ask as asking};
    ghost use Rattle.al_flow.specs.Flow as spec;

    /// Asks a rule of the statement at a place.
    fn ask(&mut self, rule: u16, at: Place, holds: bool) -> Result<(), NoMemory>
        ensures { OnOk result (self.new ≡ spec.asked (asking rule at holds) self.old) }
    {
        ask(&mut self.faults, rule, at, holds)
    }

    /// The statement at a place has that number.
    fn give(&mut self, at: Place, number: u64) -> Result<(), NoMemory>
        ensures { OnOk result (self.new ≡ spec.given at (Some number) self.old) }
    {
        self.targets.push(Target { at, number })
    }

    /// The statement at a place has that number, if there is one.
    fn give_found(&mut self, at: Place, found: Option<u64>) -> Result<(), NoMemory>
        ensures { OnOk result (self.new ≡ spec.given at found self.old) }
    {
        match found {
            None => Ok(()),
            Some(number) => self.give(at, number),
        }
    }

    /// A label or rescue is passed, which has the next number.
    fn pass(&mut self, at: Place, mark: Mark) -> Result<(), NoMemory>
        ensures { OnOk result (self.new ≡ spec.passed at mark self.old) }
    {
        let number = self.passed.len() as u64;
        self.give(at, number)?;
        self.passed.push(mark)
    }

    /// Meets a label.
    #[tactic(auto, unfolding(crate::specs::Flow::labelled))]
    pub(crate) fn label(&mut self, at: Place, name: u32) -> Result<(), NoMemory>
        ensures { OnOk result (self.new ≡ spec.labelled at name self.old) }
    {
        let holds = is_new_label(&self.passed, name);
        self.ask(50, at, holds)?;
        self.pass(at, Mark::Label(name))
    }

    /// Meets the beginning of a rescue.
    #[tactic(auto, unfolding(crate::specs::Flow::rescued))]
    pub(crate) fn rescue(&mut self, at: Place, name: Option<u32>) -> Result<(), NoMemory>
        ensures { OnOk result (self.new ≡ spec.rescued at name self.old) }
    {
        let holds = is_new_rescue(&self.passed, name);
        self.ask(51, at, holds)?;
        self.pass(at, Mark::Rescue(name))
    }

    /// Meets a goto.
    #[tactic(auto, unfolding(crate::specs::Flow::gone))]
    pub(crate) fn goto(&mut self, marks: &Marks, at: Place, name: u32) -> Result<(), NoMemory>
        ensures { OnOk result (self.new ≡ spec.gone at name marks.now self.old) }
    {
        let label = marks.label_named(name);
        self.ask(50, at, label.is_some())?;
        self.give_found(at, label)
    }

    #[tactic(auto, unfolding(crate::specs::Flow::rescue_of))]
    fn rescue_of(&self, marks: &Marks, name: Option<u32>) -> Option<u64>
        ensures { result ≡ spec.rescue_of marks.now self.now.closest name }
    {
        match name {
            None => self.closest,
            Some(name) => marks.rescue_named(name),
        }
    }

    /// Meets a raise.
    #[tactic(auto, unfolding(crate::specs::Flow::raised))]
    pub(crate) fn raise(
        &mut self,
        marks: &Marks,
        at: Place,
        name: Option<u32>,
    ) -> Result<(), NoMemory>
        ensures { OnOk result (self.new ≡ spec.raised at name marks.now self.old) }
    {
        let rescue = self.rescue_of(marks, name);
        self.ask(51, at, rescue.is_some())?;
        self.give_found(at, rescue)
    }

    /// Meets a break or a continue of that count, with so many targets round it, and so many round the branch at hand.
    #[tactic(auto, unfolding(crate::specs::Flow::left))]
    fn leave(&mut self, at: Place, n: u64, count: usize, outside: usize) -> Result<(), NoMemory>
        ensures { OnOk result (self.new ≡ spec.left at n count outside self.old) }
    {
        self.ask(49, at, has_targets(n, count))?;
        self.ask(54, at, stays_inside(n, count, outside))?;
        self.give(at, n)
    }

    /// Meets a break.
    #[tactic(auto, unfolding(crate::specs::Flow::broken_off))]
    pub(crate) fn break_off(&mut self, at: Place, count: Option<u64>) -> Result<(), NoMemory>
        ensures { OnOk result (self.new ≡ spec.broken_off at count self.old) }
    {
        let left = self.around.len();
        self.leave(at, count_of(count), left, self.outside.left)
    }

    /// Meets a continue.
    #[tactic(auto, unfolding(crate::specs::Flow::gone_on))]
    pub(crate) fn go_on(&mut self, at: Place, count: Option<u64>) -> Result<(), NoMemory>
        ensures { OnOk result (self.new ≡ spec.gone_on at count self.old) }
    {
        let loops = loops_in(self.around.as_slice());
        self.leave(at, count_of(count), loops, self.outside.loops)
    }

    /// Meets a par of so many branches.
    #[tactic(auto, unfolding(crate::specs::Flow::parted))]
    pub(crate) fn par(&mut self, at: Place, count: usize) -> Result<(), NoMemory>
        ensures { OnOk result (self.new ≡ spec.parted at count self.old) }
    {
        self.ask(54, at, has_branches(count))
    }
}
