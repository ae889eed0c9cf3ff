ghost use Rattle.std.specs.Prelude.{◌≡◌, [], ◌∷◌, reverse, OnOk, IfOk, MatchOption};

use crate::copied::Copied;
use al_base::NoMemory;
use std::alloc::Global;
use std::marker::Model;

/// A list of which the first element is at hand.
#[derive(Debug, Drop)]
pub struct Stack<T> {
    /// The first element stands at the end.
    items: Vec<T>,
}

impl<T> Model for Stack<T> {
    ghost use Rattle.std.specs.Prelude.{List, reverse};
    ghost use Rattle.std.specs.Coded.{coded_list};

    ghost Value = { List T };

    ghost coded = { coded_list T.code };

    ghost view = { λ it. reverse it.items.items };
}

impl<T> Stack<T> {
    /// An empty list, which takes no memory yet.
    pub fn new(alloc: Global) -> Stack<T>
        ensures { result ≡ [] }
    {
        Stack {
            items: Vec::new(alloc),
        }
    }

    /// A list made of a `Vec`, without taking memory.
    #[tactic(auto, using(crate::proofs::Reversed::reversed))]
    pub fn from_vec(items: Vec<T>) -> Stack<T>
        ensures { result ≡ items.items }
    {
        let mut items = items;
        items.reverse();
        Stack { items }
    }

    /// The elements, the last first.
    #[tactic(auto, using(crate::proofs::Reversed::reversed))]
    pub fn backwards(&self) -> &[T]
        ensures { result.now ≡ reverse self.now }
    {
        self.items.as_slice()
    }

    /// Takes the first element away.
    pub fn pop(&mut self) -> Option<T>
        ensures { MatchOption result ((self.old ≡ []) × (self.new ≡ [])) (λ first. self.old ≡ first ∷ self.new) }
    {
        self.items.pop()
    }
}

impl<T: Drop> Stack<T> {
    /// Puts an element before the others. Where there is no memory for it, it is dropped.
    pub fn push(&mut self, item: T) -> Result<(), NoMemory>
        ensures { OnOk result (self.new ≡ item ∷ self.old) }
    {
        self.items.push(item)?;
        Ok(())
    }
}

impl<T: Copied + Drop> Copied for Stack<T> {
    fn copied(&self, alloc: Global) -> Result<Stack<T>, NoMemory> {
        let mut items = Vec::with_capacity(alloc, self.items.len())?;
        for item in self.items.as_slice() {
            items.push(item.copied(alloc)?)?;
        }
        Ok(Stack { items })
    }
}
