//! Copies of controls, for those who look at a task that goes on.
ghost use Rattle.std.specs.Prelude.{◌≡◌, IfOk};

use crate::control::{Control, Entering, Frame, Item};
use crate::work::{Action, Argument, Bounds, Calling, Found, Operator, Storage, ValueStage, Work};
use al_base::NoMemory;
use al_event::Words;
use al_items::{Boxed, Items};
use al_typed::Unit;
use std::alloc::Global;

/// What can be copied where there is memory for it.
pub trait Copied: Sized {
    fn copied(&self, alloc: Global) -> Result<Self, NoMemory>
        ensures { IfOk result (λ r. r ≡ self.now) };
}

impl Copied for u32 {
    fn copied(&self, _alloc: Global) -> Result<u32, NoMemory> {
        Ok(*self)
    }
}

impl Copied for Unit {
    fn copied(&self, _alloc: Global) -> Result<Unit, NoMemory> {
        Ok(*self)
    }
}

impl Copied for Bounds {
    fn copied(&self, _alloc: Global) -> Result<Bounds, NoMemory> {
        Ok(*self)
    }
}

/// The same words.
fn words(alloc: Global, words: &Words) -> Result<Words, NoMemory>
    ensures { IfOk result (λ ws. ws ≡ words.now) }
{
    Items::from_slice(alloc, words.as_slice())
}

/// The same words, where there are any.
fn given(alloc: Global, given: &Option<Words>) -> Result<Option<Words>, NoMemory>
    ensures { IfOk result (λ r. r ≡ given.now) }
{
    match given {
        None => Ok(None),
        Some(given) => Ok(Some(words(alloc, given)?)),
    }
}

/// The same lists of words.
fn lists(alloc: Global, lists: &Items<Words>) -> Result<Items<Words>, NoMemory>
    ensures { IfOk result (λ r. r ≡ lists.now) }
{
    let mut copies = Items::with_capacity(alloc, lists.len())?;
    for list in lists.as_slice() {
        copies.push(words(alloc, list)?)?;
    }
    Ok(copies)
}

impl Copied for Found {
    fn copied(&self, alloc: Global) -> Result<Found, NoMemory> {
        match self {
            Found::Words(value) => Ok(Found::Words(words(alloc, value)?)),
            Found::Address(at) => Ok(Found::Address(*at)),
            Found::Local(number) => Ok(Found::Local(*number)),
            Found::Private(number) => Ok(Found::Private(*number)),
            Found::Nowhere => Ok(Found::Nowhere),
        }
    }
}

impl<'p> Copied for Argument<'p> {
    fn copied(&self, alloc: Global) -> Result<Argument<'p>, NoMemory> {
        Ok(Argument {
            ty: self.ty,
            words: words(alloc, &self.words)?,
        })
    }
}

/// The same operator.
fn operator<'p>(operator: &Operator<'p>) -> Operator<'p>
    ensures { result ≡ operator.now }
{
    match operator {
        Operator::Unary(op, kind) => Operator::Unary(*op, *kind),
        Operator::Negate => Operator::Negate,
        Operator::Binary(op, kind) => Operator::Binary(*op, *kind),
        Operator::Truth => Operator::Truth,
        Operator::Advance { back, size } => Operator::Advance {
            back: *back,
            size: *size,
        },
        Operator::AdvanceCounted { size } => Operator::AdvanceCounted { size: *size },
        Operator::Between { size } => Operator::Between { size: *size },
        Operator::Convert { from, to } => Operator::Convert { from, to },
        Operator::Join { count } => Operator::Join { count: *count },
    }
}

impl<'p> Copied for Storage<'p> {
    fn copied(&self, alloc: Global) -> Result<Storage<'p>, NoMemory> {
        match self {
            Storage::Point { offset } => Ok(Storage::Point { offset: *offset }),
            Storage::Index { size } => Ok(Storage::Index { size: *size }),
            Storage::Within { offset } => Ok(Storage::Within { offset: *offset }),
            Storage::AddressOf => Ok(Storage::AddressOf),
            Storage::Read(ty) => Ok(Storage::Read(ty)),
            Storage::Look(ty) => Ok(Storage::Look(ty)),
            Storage::Fetch { at, units, got } => Ok(Storage::Fetch {
                at: *at,
                units: units.copied(alloc)?,
                got: words(alloc, got)?,
            }),
            Storage::Fetched { at, units, got } => Ok(Storage::Fetched {
                at: *at,
                units: units.copied(alloc)?,
                got: words(alloc, got)?,
            }),
            Storage::Save {
                ty,
                words: value,
                place,
            } => Ok(Storage::Save {
                ty,
                words: words(alloc, value)?,
                place: place.copied(alloc)?,
            }),
            Storage::Put(ty) => Ok(Storage::Put(ty)),
            Storage::Write {
                at,
                units,
                words: left,
            } => Ok(Storage::Write {
                at: *at,
                units: units.copied(alloc)?,
                words: left.copied(alloc)?,
            }),
            Storage::Update { ty, change } => Ok(Storage::Update {
                ty,
                change: *change,
            }),
            Storage::Step { ty, op } => Ok(Storage::Step { ty, op: *op }),
            Storage::Clear(ty) => Ok(Storage::Clear(ty)),
        }
    }
}

impl<'p> Copied for Calling<'p> {
    fn copied(&self, alloc: Global) -> Result<Calling<'p>, NoMemory> {
        match self {
            Calling::PassPlace { passed, ty, offset } => Ok(Calling::PassPlace {
                passed: *passed,
                ty,
                offset: *offset,
            }),
            Calling::PassPointer { passed, ty, offset } => Ok(Calling::PassPointer {
                passed: *passed,
                ty,
                offset: *offset,
            }),
            Calling::PassPart { passed, ty, path } => Ok(Calling::PassPart {
                passed: *passed,
                ty,
                path,
            }),
            Calling::Invoke { function, count } => Ok(Calling::Invoke {
                function: *function,
                count: *count,
            }),
            Calling::InvokePointer { ty, count } => {
                Ok(Calling::InvokePointer { ty, count: *count })
            }
            Calling::Enter {
                function,
                words: value,
            } => Ok(Calling::Enter {
                function: *function,
                words: words(alloc, value)?,
            }),
            Calling::InvokeInstead { function, count } => Ok(Calling::InvokeInstead {
                function: *function,
                count: *count,
            }),
            Calling::Replace {
                function,
                words: value,
            } => Ok(Calling::Replace {
                function: *function,
                words: words(alloc, value)?,
            }),
            Calling::TakeBlock => Ok(Calling::TakeBlock),
            Calling::SetBlock => Ok(Calling::SetBlock),
            Calling::StoreParameter {
                number,
                words: value,
            } => Ok(Calling::StoreParameter {
                number: *number,
                words: words(alloc, value)?,
            }),
            Calling::Returns { is_valued } => Ok(Calling::Returns {
                is_valued: *is_valued,
            }),
            Calling::CountReturn(value) => Ok(Calling::CountReturn(given(alloc, value)?)),
            Calling::Leave(value) => Ok(Calling::Leave(given(alloc, value)?)),
        }
    }
}

impl<'p> Copied for Action<'p> {
    fn copied(&self, alloc: Global) -> Result<Action<'p>, NoMemory> {
        match self {
            Action::Compose {
                pieces,
                arguments,
                text,
            } => Ok(Action::Compose {
                pieces,
                arguments: arguments.copied(alloc)?,
                text: Items::from_slice(alloc, text.as_slice())?,
            }),
            Action::Scan {
                at,
                pieces,
                arguments,
                text,
            } => Ok(Action::Scan {
                at: *at,
                pieces,
                arguments: arguments.copied(alloc)?,
                text: Items::from_slice(alloc, text.as_slice())?,
            }),
            Action::Scanned {
                at,
                pieces,
                arguments,
                text,
            } => Ok(Action::Scanned {
                at: *at,
                pieces,
                arguments: arguments.copied(alloc)?,
                text: Items::from_slice(alloc, text.as_slice())?,
            }),
            Action::Terminates => Ok(Action::Terminates),
            Action::Receives(ty) => Ok(Action::Receives(ty)),
            Action::Received(ty) => Ok(Action::Received(ty)),
            Action::Sends(ty) => Ok(Action::Sends(ty)),
            Action::CanReceives => Ok(Action::CanReceives),
            Action::CanSends => Ok(Action::CanSends),
            Action::Allocate(ty) => Ok(Action::Allocate(ty)),
            Action::Unallocate(ty) => Ok(Action::Unallocate(ty)),
            Action::StartProc { function, count } => Ok(Action::StartProc {
                function: *function,
                count: *count,
            }),
            Action::StartTask { function, count } => Ok(Action::StartTask {
                function: *function,
                count: *count,
            }),
        }
    }
}

impl Copied for ValueStage {
    fn copied(&self, alloc: Global) -> Result<ValueStage, NoMemory> {
        match self {
            ValueStage::Eval => Ok(ValueStage::Eval),
            ValueStage::AndThen => Ok(ValueStage::AndThen),
            ValueStage::OrElse => Ok(ValueStage::OrElse),
            ValueStage::Gather => Ok(ValueStage::Gather),
            ValueStage::Bound { count } => Ok(ValueStage::Bound { count: *count }),
            ValueStage::Iterate { number, bounds } => Ok(ValueStage::Iterate {
                number: *number,
                bounds: bounds.copied(alloc)?,
            }),
            ValueStage::NextTurn {
                number,
                bounds,
                rest,
            } => Ok(ValueStage::NextTurn {
                number: *number,
                bounds: *bounds,
                rest: rest.copied(alloc)?,
            }),
        }
    }
}

impl<'p> Copied for Work<'p> {
    fn copied(&self, alloc: Global) -> Result<Work<'p>, NoMemory> {
        match self {
            Work::Value(stage, e) => Ok(Work::Value(stage.copied(alloc)?, e)),
            Work::Target(stage, target) => Ok(Work::Target(*stage, target)),
            Work::Statement(stage, statement) => Ok(Work::Statement(
                *stage,
                Boxed::new(alloc, *statement.get())?,
            )),
            Work::Find(place) => Ok(Work::Find(place)),
            Work::FindDeclared { ty, number } => Ok(Work::FindDeclared {
                ty,
                number: *number,
            }),
            Work::Operator(it) => Ok(Work::Operator(operator(it))),
            Work::Part { ty, path } => Ok(Work::Part { ty, path }),
            Work::Storage(storage) => Ok(Work::Storage(storage.copied(alloc)?)),
            Work::Calling(calling) => Ok(Work::Calling(calling.copied(alloc)?)),
            Work::Action(action) => Ok(Work::Action(action.copied(alloc)?)),
            Work::Answered => Ok(Work::Answered),
            Work::Give(value) => Ok(Work::Give(words(alloc, value)?)),
            Work::Forget => Ok(Work::Forget),
            Work::Test => Ok(Work::Test),
            Work::CasesEnd => Ok(Work::CasesEnd),
        }
    }
}

impl<'p> Copied for Item<'p> {
    fn copied(&self, alloc: Global) -> Result<Item<'p>, NoMemory> {
        Ok(Item {
            line: self.line,
            work: self.work.copied(alloc)?,
        })
    }
}

impl<'p> Copied for Frame<'p> {
    fn copied(&self, alloc: Global) -> Result<Frame<'p>, NoMemory> {
        Ok(Frame {
            function: self.function,
            locals: lists(alloc, &self.locals)?,
            block: self.block,
            around: words(alloc, &self.around)?,
            turns: words(alloc, &self.turns)?,
            items: self.items.copied(alloc)?,
            found: self.found.copied(alloc)?,
        })
    }
}

/// The same start of a function.
fn entering(alloc: Global, entering: &Option<Entering>) -> Result<Option<Entering>, NoMemory>
    ensures { IfOk result (λ r. r ≡ entering.now) }
{
    match entering {
        None => Ok(None),
        Some(
            Entering {
                function,
                words: value,
            },
        ) => Ok(Some(Entering {
            function: *function,
            words: words(alloc, value)?,
        })),
    }
}

impl<'p> Copied for Control<'p> {
    fn copied(&self, alloc: Global) -> Result<Control<'p>, NoMemory> {
        Ok(Control {
            entering: entering(alloc, &self.entering)?,
            frames: self.frames.copied(alloc)?,
        })
    }
}
