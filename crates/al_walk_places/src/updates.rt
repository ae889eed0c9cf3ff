//! Values that are changed where they stand: `op=`, `++` and `--`, zerox.
ghost use Rattle.std.specs.Prelude.{◌≡◌, ◌<◌, ◌^◌, unwrap_or, if◌then◌else◌, IfOk, IfErr};
ghost use Rattle.al_typed.specs.declared.expression.BinaryOp.TheVariants as binary;
ghost use Rattle.al_typed.specs.declared.expression.Change.TheVariants as change;
ghost use Rattle.al_typed.specs.declared.ty.Ty.{out-Ty};
ghost use Rattle.al_typed.specs.Layout.{IsLaidOut};
ghost use Rattle.al_meaning.specs.Words.{operated, integer_words, zero_words};
ghost use Rattle.al_meaning.specs.Evaluate as spec;
ghost use Rattle.al_meaning.specs.Here as here;
ghost use Rattle.al_meaning.specs.Items as item;
ghost use Rattle.al_meaning.specs.Places as places;
ghost use Rattle.al_meaning.specs.Step as step;
ghost use Rattle.al_control_values.specs.Fits.{IsSmall};
ghost use Rattle.al_control.specs.Fits.{Explains};
ghost use Rattle.al_control.specs.Models.{found_of, here_of, next_of};
ghost use Rattle.al_walk_places.specs.Fits.{ChangeFits};

use al_base::{Kind, NoMemory, Trap};
use al_control::{
    Found, Here, Next, Storage, Taken, Unmade, Work, does_two, place, traps, two_values, value,
};
use al_control_values::{
    bits, converted, integer_words, one_word, operated, stepped_by, zero_words,
};
use al_event::Words;
use al_items::Items;
use al_typed::{BinaryOp, Change, Program, StepOp, Ty};
use al_variables::{few_words, pointee_size};
use std::alloc::Global;

/// A value is put into a place, and then it or another is given.
fn saves_and_gives<'p>(
    ty: &'p Ty,
    place: Found,
    words: Words,
    given: Words,
    h: Here<'p>,
) -> Result<Next<'p>, NoMemory>
    ensures { IfOk result (λ n. next_of n ≡ spec.saves_and_gives (here_of h.entry) ty.now (found_of place) words given) }
{
    does_two(
        h,
        Work::Storage(Storage::Save { ty, words, place }),
        Work::Give(given),
    )
}

/// A value is put into a place, and then it is given.
fn saves_and_gives_it<'p>(
    alloc: Global,
    ty: &'p Ty,
    place: Found,
    words: Words,
    h: Here<'p>,
) -> Result<Next<'p>, NoMemory>
    ensures { IfOk result (λ n. next_of n ≡ spec.saves_and_gives (here_of h.entry) ty.now (found_of place) words words) }
{
    let given = Items::from_slice(alloc, words.as_slice())?;
    saves_and_gives(ty, place, words, given, h)
}

/// What an operator makes of an old value; none for a division by 0.
fn applied(
    alloc: Global,
    p: &Program,
    ty: &Ty,
    op: BinaryOp,
    kind: Kind,
    old: &[u32],
    value: &[u32],
) -> Result<Option<Words>, NoMemory>
    requires { IsLaidOut p.now.aggregates }
    ensures { IfOk result (λ ws. ws ≡ spec.updated p.now ty.now (change.Apply op kind) old.now value.now) }
{
    let rows = p.aggregates.as_slice();
    let integer = Ty::Integer(kind);
    let operand = converted(alloc, rows, ty, &integer, old)?;
    match operated(alloc, op, kind, operand.as_slice(), value)? {
        None => Ok(None),
        Some(words) => Ok(Some(converted(alloc, rows, &integer, ty, words.as_slice())?)),
    }
}

/// What an operator makes of an old value is put into its place.
fn apply_to<'p>(
    alloc: Global,
    ty: &'p Ty,
    op: BinaryOp,
    kind: Kind,
    place: Found,
    both: (Words, Words),
    h: Here<'p>,
) -> Result<Next<'p>, NoMemory>
    requires { IsLaidOut h.program.now.aggregates }
    ensures { IfOk result (λ n. next_of n ≡ spec.saves_updated (here_of h.entry) ty.now (found_of place) (spec.updated h.entry.program.now ty.now (change.Apply op kind) both.0 both.1)) }
{
    let (old, value) = both;
    match applied(
        alloc,
        h.program,
        ty,
        op,
        kind,
        old.as_slice(),
        value.as_slice(),
    )? {
        None => traps(h, Trap::Divide),
        Some(words) => saves_and_gives_it(alloc, ty, place, words, h),
    }
}

/// What an operator makes of an old value is put into the place that was found last.
fn apply_there<'p>(
    alloc: Global,
    ty: &'p Ty,
    op: BinaryOp,
    kind: Kind,
    both: (Words, Words),
    h: Here<'p>,
) -> Result<Next<'p>, NoMemory>
    requires { IsLaidOut h.program.now.aggregates }
    ensures { IfOk result (λ n. next_of n ≡ here.with_place (here_of h.entry) (λ f at. spec.saves_updated at ty.now f (spec.updated at.program ty.now (change.Apply op kind) both.0 both.1))) }
{
    match place(h)? {
        Taken::Lost(next) => Ok(next),
        Taken::Took(place, h) => apply_to(alloc, ty, op, kind, place, both, h),
    }
}

/// `op=` where the value of the place is an integer.
fn apply<'p>(
    alloc: Global,
    ty: &'p Ty,
    op: BinaryOp,
    kind: Kind,
    h: Here<'p>,
) -> Result<Next<'p>, NoMemory>
    requires { IsLaidOut h.program.now.aggregates }
    ensures { IfOk result (λ n. next_of n ≡ step.step_work (item.Update ty.now (change.Apply op kind)) (here_of h.entry)) }
{
    match two_values(h)? {
        Taken::Lost(next) => Ok(next),
        Taken::Took(both, h) => apply_there(alloc, ty, op, kind, both, h),
    }
}

/// A pointer to elements of `size` bytes that has moved is put into its place.
fn advance_to<'p>(
    alloc: Global,
    ty: &'p Ty,
    back: bool,
    size: u32,
    place: Found,
    both: (Words, Words),
    h: Here<'p>,
) -> Result<Next<'p>, NoMemory>
    requires { size ≡ here.size_in h.program.now (here.pointee ty.now) }
    ensures { IfOk result (λ n. next_of n ≡ spec.saves_updated (here_of h.entry) ty.now (found_of place) (spec.updated h.entry.program.now ty.now (change.Move back) both.0 both.1)) }
{
    let (old, value) = both;
    let at = stepped_by(back, size, bits(old.as_slice()), bits(value.as_slice()));
    let words = one_word(alloc, at)?;
    saves_and_gives_it(alloc, ty, place, words, h)
}

/// A pointer to elements of `size` bytes that has moved is put into the place that was found last.
fn advance_there<'p>(
    alloc: Global,
    ty: &'p Ty,
    back: bool,
    size: u32,
    both: (Words, Words),
    h: Here<'p>,
) -> Result<Next<'p>, NoMemory>
    requires { size ≡ here.size_in h.program.now (here.pointee ty.now) }
    ensures { IfOk result (λ n. next_of n ≡ here.with_place (here_of h.entry) (λ f at. spec.saves_updated at ty.now f (spec.updated at.program ty.now (change.Move back) both.0 both.1))) }
{
    match place(h)? {
        Taken::Lost(next) => Ok(next),
        Taken::Took(place, h) => advance_to(alloc, ty, back, size, place, both, h),
    }
}

/// `+=` and `-=` where the value of the place is a pointer to elements of `size` bytes.
fn advance<'p>(
    alloc: Global,
    ty: &'p Ty,
    back: bool,
    size: u32,
    h: Here<'p>,
) -> Result<Next<'p>, NoMemory>
    requires { size ≡ here.size_in h.program.now (here.pointee ty.now) }
    ensures { IfOk result (λ n. next_of n ≡ step.step_work (item.Update ty.now (change.Move back)) (here_of h.entry)) }
{
    match two_values(h)? {
        Taken::Lost(next) => Ok(next),
        Taken::Took(both, h) => advance_there(alloc, ty, back, size, both, h),
    }
}

/// `op=`
pub fn update<'p>(
    alloc: Global,
    ty: &'p Ty,
    change: Change,
    h: Here<'p>,
) -> Result<Next<'p>, Unmade>
    requires { IsLaidOut h.program.now.aggregates }
    ensures next { IfOk result (λ n. next_of n ≡ step.step_work (item.Update ty.now change) (here_of h.entry)) }
    ensures why { IfErr result (λ e. Explains e (ChangeFits h.entry.program.now ty.now change)) }
{
    match change {
        Change::Apply { op, kind } => Ok(apply(alloc, ty, op, kind, h)?),
        Change::Move { back } => match pointee_size(h.program, ty) {
            None => Err(Unmade::TooLarge),
            Some(size) => Ok(advance(alloc, ty, back, size, h)?),
        },
    }
}

/// Whether `++` or `--` makes a value less.
fn goes_back(op: StepOp) -> bool
    ensures { result ≡ spec.goes_back op }
{
    match op {
        StepOp::PreIncrement | StepOp::PostIncrement => false,
        StepOp::PreDecrement | StepOp::PostDecrement => true,
    }
}

/// The operator that makes an integer one more or less.
fn step_operator(back: bool) -> BinaryOp
    ensures { result ≡ (if back then binary.Subtract else binary.Add) }
{
    if back {
        BinaryOp::Subtract
    } else {
        BinaryOp::Add
    }
}

/// An integer of a kind that is one more or less.
fn next_integer(alloc: Global, back: bool, kind: Kind, words: &[u32]) -> Result<Words, NoMemory>
    ensures { IfOk result (λ ws. ws ≡ unwrap_or (operated (if back then binary.Subtract else binary.Add) kind words.now (integer_words kind 1)) words.now) }
{
    let one = integer_words(alloc, kind, 1)?;
    match operated(alloc, step_operator(back), kind, words, one.as_slice())? {
        None => Items::from_slice(alloc, words),
        Some(next) => Ok(next),
    }
}

/// One more or less: an integer of a kind, or a pointer to elements of `size` bytes.
#[tactic(auto, using(crate::proofs::NextValues::next_values))]
fn next_value(
    alloc: Global,
    p: &Program,
    back: bool,
    ty: &Ty,
    size: u32,
    words: &[u32],
) -> Result<Words, NoMemory>
    requires { size ≡ here.size_in p.now (here.pointee ty.now) }
    ensures { IfOk result (λ ws. ws ≡ spec.next_value p.now back ty.now (out-Ty ty.now) words.now) }
{
    match ty {
        Ty::Integer(kind) => next_integer(alloc, back, *kind, words),
        Ty::Pointer(_) => one_word(alloc, stepped_by(back, size, bits(words), 1)),
        Ty::Void
        | Ty::Array { .. }
        | Ty::Chan { .. }
        | Ty::Tuple(_)
        | Ty::Aggregate(_)
        | Ty::Function { .. } => Items::from_slice(alloc, words),
    }
}

/// The value of `++` and `--`.
fn step_gives(alloc: Global, op: StepOp, old: Words, new: &[u32]) -> Result<Words, NoMemory>
    ensures { IfOk result (λ ws. ws ≡ spec.step_gives op old new.now) }
{
    match op {
        StepOp::PreIncrement | StepOp::PreDecrement => Items::from_slice(alloc, new),
        StepOp::PostIncrement | StepOp::PostDecrement => Ok(old),
    }
}

/// What is one more or less than an old value, an integer or a pointer to elements of `size` bytes, is put into its place.
fn step_to<'p>(
    alloc: Global,
    ty: &'p Ty,
    op: StepOp,
    size: u32,
    place: Found,
    old: Words,
    h: Here<'p>,
) -> Result<Next<'p>, NoMemory>
    requires { size ≡ here.size_in h.program.now (here.pointee ty.now) }
    ensures { IfOk result (λ n. let new = spec.next_value h.entry.program.now (spec.goes_back op) ty.now (out-Ty ty.now) old in next_of n ≡ spec.saves_and_gives (here_of h.entry) ty.now (found_of place) new (spec.step_gives op old new)) }
{
    let back = goes_back(op);
    let new = next_value(alloc, h.program, back, ty, size, old.as_slice())?;
    let given = step_gives(alloc, op, old, new.as_slice())?;
    saves_and_gives(ty, place, new, given, h)
}

/// What is one more or less than an old value is put into the place that was found last.
fn step_there<'p>(
    alloc: Global,
    ty: &'p Ty,
    op: StepOp,
    size: u32,
    old: Words,
    h: Here<'p>,
) -> Result<Next<'p>, NoMemory>
    requires { size ≡ here.size_in h.program.now (here.pointee ty.now) }
    ensures { IfOk result (λ n. next_of n ≡ here.with_place (here_of h.entry) (λ f at. let new = spec.next_value at.program (spec.goes_back op) ty.now (out-Ty ty.now) old in spec.saves_and_gives at ty.now f new (spec.step_gives op old new))) }
{
    match place(h)? {
        Taken::Lost(next) => Ok(next),
        Taken::Took(place, h) => step_to(alloc, ty, op, size, place, old, h),
    }
}

/// `++` and `--`, of an integer or a pointer to elements of `size` bytes.
fn step_by<'p>(
    alloc: Global,
    ty: &'p Ty,
    op: StepOp,
    size: u32,
    h: Here<'p>,
) -> Result<Next<'p>, NoMemory>
    requires { size ≡ here.size_in h.program.now (here.pointee ty.now) }
    ensures { IfOk result (λ n. next_of n ≡ step.step_work (item.Step ty.now op) (here_of h.entry)) }
{
    match value(h)? {
        Taken::Lost(next) => Ok(next),
        Taken::Took(old, h) => step_there(alloc, ty, op, size, old, h),
    }
}

/// `++` and `--`
pub fn step_place<'p>(
    alloc: Global,
    ty: &'p Ty,
    op: StepOp,
    h: Here<'p>,
) -> Result<Next<'p>, Unmade>
    requires { IsLaidOut h.program.now.aggregates }
    ensures next { IfOk result (λ n. next_of n ≡ step.step_work (item.Step ty.now op) (here_of h.entry)) }
    ensures why { IfErr result (λ e. Explains e (IsSmall h.entry.program.now (here.pointee ty.now))) }
{
    match pointee_size(h.program, ty) {
        None => Err(Unmade::TooLarge),
        Some(size) => Ok(step_by(alloc, ty, op, size, h)?),
    }
}

/// Zero, of so many words, is put into the place that was found last, and then the old value is given.
fn clear_there<'p>(
    alloc: Global,
    ty: &'p Ty,
    count: u32,
    old: Words,
    h: Here<'p>,
) -> Result<Next<'p>, NoMemory>
    requires { count ≡ places.words_in h.program.now ty.now }
    ensures { IfOk result (λ n. next_of n ≡ here.with_place (here_of h.entry) (λ f at. spec.saves_and_gives at ty.now f (zero_words (places.words_in at.program ty.now)) old)) }
{
    match place(h)? {
        Taken::Lost(next) => Ok(next),
        Taken::Took(place, h) => {
            let zero = zero_words(alloc, count as u64)?;
            saves_and_gives(ty, place, zero, old, h)
        }
    }
}

/// zerox of a value of so many words.
fn clear_words<'p>(alloc: Global, ty: &'p Ty, count: u32, h: Here<'p>) -> Result<Next<'p>, NoMemory>
    requires { count ≡ places.words_in h.program.now ty.now }
    ensures { IfOk result (λ n. next_of n ≡ step.step_work (item.Clear ty.now) (here_of h.entry)) }
{
    match value(h)? {
        Taken::Lost(next) => Ok(next),
        Taken::Took(old, h) => clear_there(alloc, ty, count, old, h),
    }
}

/// zerox
pub fn clear<'p>(alloc: Global, ty: &'p Ty, h: Here<'p>) -> Result<Next<'p>, Unmade>
    requires { IsLaidOut h.program.now.aggregates }
    ensures next { IfOk result (λ n. next_of n ≡ step.step_work (item.Clear ty.now) (here_of h.entry)) }
    ensures why { IfErr result (λ e. Explains e (places.words_in h.entry.program.now ty.now < 2 ^ 32)) }
{
    match few_words(h.program.aggregates.as_slice(), ty) {
        None => Err(Unmade::TooLarge),
        Some(count) => Ok(clear_words(alloc, ty, count, h)?),
    }
}
