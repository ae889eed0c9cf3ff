//! What is known at a point of a text.
ghost use Rattle.std.specs.Prelude.{◌≡◌, OnOk};
ghost use Rattle.al_scope.specs.Names as spec;

use crate::declaration::{Declaration, Resolved};
use crate::known::{Known, KnownNames};
use crate::names::Names;
use al_base::{NoMemory, Place};
use al_items::Items;
use al_rules::{TypeFault, ask};
use al_tree::Name;

/// What is known at a point of a text, and what was found before it.
#[derive(Drop)]
pub(crate) struct Walk {
    /// What is in scope, the latest last.
    pub(crate) known: KnownNames,
    /// The enum constants that stand before.
    pub(crate) constants: Items<Name>,
    pub(crate) globals: Items<Name>,
    pub(crate) functions: Items<Name>,
    /// For each function round the one at hand, which is a par branch where there are any, where its locals begin in
    /// `locals`, the outermost first.
    pub(crate) around: Items<usize>,
    /// Where the locals of the function at hand begin.
    pub(crate) start: usize,
    /// The parameters and locals of these functions that stand before.
    pub(crate) locals: Items<Option<Name>>,
    pub(crate) names: Names,
    pub(crate) faults: Items<TypeFault>,
}

#[tactic(auto, unfolding(crate::specs::Names::seen_from))]
fn seen_from(around: usize, declaration: Declaration) -> Declaration
    ensures { result ≡ spec.seen_from around declaration }
{
    match declaration {
        Declaration::Outer {
            around: own,
            number,
        } => {
            if own == around {
                Declaration::Local(number)
            } else {
                Declaration::Outer {
                    around: own,
                    number,
                }
            }
        }
        Declaration::Global(n) => Declaration::Global(n),
        Declaration::Function(n) => Declaration::Function(n),
        Declaration::Constant(n) => Declaration::Constant(n),
        Declaration::Local(n) => Declaration::Local(n),
        Declaration::Print => Declaration::Print,
        Declaration::Terminate => Declaration::Terminate,
    }
}

fn is_global(declaration: Option<Declaration>) -> bool
    ensures { result ≡ spec.is_global declaration }
{
    match declaration {
        Some(Declaration::Global(_)) => true,
        _ => false,
    }
}

fn is_function(declaration: Option<Declaration>) -> bool
    ensures { result ≡ spec.is_function declaration }
{
    match declaration {
        Some(Declaration::Function(_)) => true,
        _ => false,
    }
}

impl Walk {
    ghost use Rattle.std.specs.Prelude.{◌≡◌, ◌-◌, ◌++◌, ◌∷◌, [], Some, take, length, OnOk};
    ghost use Rattle.al_rules.specs.Outcome.{ask as asking};
    ghost use Rattle.al_scope.specs.Names as spec;

    /// What a name stands for here.
    #[tactic(auto, unfolding(crate::specs::Names::meant))]
    fn meant(&self, name: u32) -> Option<Declaration>
        ensures { result ≡ spec.meant self.now name }
    {
        match self.known.latest(name as usize) {
            None => None,
            Some(declaration) => Some(seen_from(self.around.len(), declaration)),
        }
    }

    /// Asks a rule of the node at a place.
    pub(crate) fn ask(&mut self, rule: u16, at: Place, holds: bool) -> Result<(), NoMemory>
        ensures { OnOk result (self.new ≡ spec.asked (asking rule at holds) self.old) }
    {
        ask(&mut self.faults, rule, at, holds)
    }

    fn find(&mut self, at: Place, declaration: Option<Declaration>) -> Result<(), NoMemory>
        ensures { OnOk result (self.new ≡ spec.found at declaration self.old) }
    {
        match declaration {
            None => Ok(()),
            Some(declaration) => self.names.push(Resolved { at, declaration }),
        }
    }

    /// Meets a name in an expression.
    #[tactic(auto, unfolding(crate::specs::Names::used))]
    pub(crate) fn use_name(&mut self, at: Place, name: u32) -> Result<(), NoMemory>
        ensures { OnOk result (self.new ≡ spec.used at name self.old) }
    {
        let declaration = self.meant(name);
        self.ask(1, at, declaration.is_some())?;
        self.find(at, declaration)
    }

    fn know(&mut self, name: usize, declaration: Declaration) -> Result<(), NoMemory>
        ensures { OnOk result (self.new ≡ record self.old { known = self.old.known ++ spec.known name declaration ∷ [] }) }
    {
        self.known.push(Known { name, declaration })
    }

    fn declare(&mut self, name: Name, declaration: Declaration) -> Result<(), NoMemory>
        ensures { OnOk result (self.new ≡ spec.declared name declaration self.old) }
    {
        self.know(name.name as usize, declaration)?;
        self.find(name.at, Some(declaration))
    }

    /// The number of the next parameter or local.
    fn next_local(&self) -> usize
        ensures { result ≡ spec.next_local self.now }
    {
        self.locals.len().saturating_sub(self.start)
    }

    /// Meets the declarator of a parameter or local.
    #[tactic(auto, unfolding(crate::specs::Names::local))]
    pub(crate) fn local(&mut self, name: Name) -> Result<(), NoMemory>
        ensures { OnOk result (self.new ≡ spec.local name self.old) }
    {
        let (around, number) = (self.around.len(), self.next_local());
        self.know(name.name as usize, Declaration::Outer { around, number })?;
        self.find(name.at, Some(Declaration::Local(number)))?;
        self.locals.push(Some(name))
    }

    /// Meets a parameter without a name.
    #[tactic(auto, unfolding(crate::specs::Names::nameless))]
    pub(crate) fn nameless(&mut self) -> Result<(), NoMemory>
        ensures { OnOk result (self.new ≡ spec.nameless self.old) }
    {
        self.locals.push(None)
    }

    /// Meets the declarator of a global.
    #[tactic(auto, unfolding(crate::specs::Names::global))]
    pub(crate) fn global(&mut self, name: Name) -> Result<(), NoMemory>
        ensures { OnOk result (self.new ≡ spec.global name self.old) }
    {
        let declaration = self.meant(name.name);
        if is_global(declaration) {
            return self.find(name.at, declaration);
        }
        let number = self.globals.len();
        self.globals.push(name)?;
        self.declare(name, Declaration::Global(number))
    }

    /// Meets the head of a function.
    #[tactic(auto, unfolding(crate::specs::Names::function))]
    pub(crate) fn function(&mut self, name: Name) -> Result<(), NoMemory>
        ensures { OnOk result (self.new ≡ spec.function name self.old) }
    {
        let declaration = self.meant(name.name);
        if is_function(declaration) {
            return self.find(name.at, declaration);
        }
        let number = self.functions.len();
        self.functions.push(name)?;
        self.declare(name, Declaration::Function(number))
    }

    /// Meets the name of an enum constant.
    #[tactic(auto, unfolding(crate::specs::Names::constant))]
    pub(crate) fn constant(&mut self, name: Name) -> Result<(), NoMemory>
        ensures { OnOk result (self.new ≡ spec.constant name self.old) }
    {
        let number = self.constants.len();
        self.constants.push(name)?;
        self.declare(name, Declaration::Constant(number))
    }

    /// What the language has under that name.
    pub(crate) fn provide(
        &mut self,
        name: Option<usize>,
        declaration: Declaration,
    ) -> Result<(), NoMemory>
        ensures { OnOk result (self.new ≡ record self.old { known = self.old.known ++ spec.known_if declaration name }) }
    {
        match name {
            None => Ok(()),
            Some(name) => self.know(name, declaration),
        }
    }
}
