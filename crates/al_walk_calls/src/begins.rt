//! How functions begin.
ghost use Rattle.std.specs.Prelude.{◌≡◌, ◌<◌, ◌^◌, ℕ, if◌then◌else◌, List, ◌++◌, [], ◌∷◌, Some, None, length, map, take, drop, IfOk, IfErr, OnOk};
ghost use Rattle.al_typed.specs.Layout.{IsLaidOut, words_of};
ghost use Rattle.al_typed.specs.declared.program.Program.{Program};
ghost use Rattle.al_meaning.specs.Calls as spec;
ghost use Rattle.al_meaning.specs.Here as here;
ghost use Rattle.al_meaning.specs.Items as item;
ghost use Rattle.al_meaning.specs.Meaning as meaning;
ghost use Rattle.al_meaning.specs.Parts as parts;
ghost use Rattle.al_meaning.specs.Places as places;
ghost use Rattle.al_meaning.specs.Words as values;
ghost use Rattle.al_control.specs.Fits.{Explains};
ghost use Rattle.al_control.specs.Models.{control_of, frame_of, item_of};
ghost use Rattle.al_control_values.specs.Fits.{IsSmall};
ghost use Rattle.al_walk_calls.specs.Fits.{AreSmall, BeginFits};

use crate::rows::{any_shared, begin_fits, is_numbered, small_words};
use al_base::NoMemory;
use al_control::{Calling, Control, Frame, Item, Stack, Unmade, Work, to_do};
use al_control_values::{fitted_to, words_in, zero_words};
use al_event::{Start, Words};
use al_items::Items;
use al_typed::{Aggregate, Function, Local, Program, Ty, units};
use std::alloc::Global;

/// The words of a private parameter, each of its unit's size.
fn parameter_words(alloc: Global, p: &Program, ty: &Ty, words: &[u32]) -> Result<Words, NoMemory>
    requires laid_out { IsLaidOut p.now.aggregates }
    requires small { IsSmall p.now ty.now }
    ensures { IfOk result (λ ws. ws ≡ values.fitted_to (here.units_in p.now ty.now) words.now) }
{
    let units = units(alloc, p, ty)?;
    fitted_to(alloc, &units, words)
}

/// The words of a private local as a function begins: a parameter's, or zero.
fn private_words(
    alloc: Global,
    p: &Program,
    is_parameter: bool,
    local: &Local,
    words: &[u32],
) -> Result<Words, NoMemory>
    requires laid_out { IsLaidOut p.now.aggregates }
    requires small { IsSmall p.now local.now.ty }
    ensures { IfOk result (λ ws. ws ≡ (if is_parameter then values.fitted_to (here.units_in p.now local.now.ty) words.now else values.zero_words (places.words_in p.now local.now.ty))) }
{
    if is_parameter {
        parameter_words(alloc, p, &local.ty, words)
    } else {
        zero_words(alloc, small_words(p, &local.ty))
    }
}

/// The words of a local as a function begins. One that lies in the shared block has none.
fn local_words(
    alloc: Global,
    p: &Program,
    is_parameter: bool,
    local: &Local,
    words: &[u32],
) -> Result<Words, NoMemory>
    requires laid_out { IsLaidOut p.now.aggregates }
    requires small { IsSmall p.now local.now.ty }
    ensures { IfOk result (λ ws. ws ≡ spec.local_words p.now is_parameter local.now words.now) }
{
    if local.is_shared {
        Ok(Items::new(alloc))
    } else {
        private_words(alloc, p, is_parameter, local, words)
    }
}

/// The words behind those of a local.
fn behind<'w>(rows: &[Aggregate], local: &Local, words: &'w [u32]) -> &'w [u32]
    requires { IsLaidOut rows.now }
    ensures { result.now ≡ drop (words_of rows.now local.now.ty) words.now }
{
    let count = words_in(rows, &local.ty).min(words.len() as u64) as usize;
    &words[count..]
}

/// The words of a local, of which these are the first.
fn first_words<'w>(rows: &[Aggregate], local: &Local, words: &'w [u32]) -> &'w [u32]
    requires { IsLaidOut rows.now }
    ensures { result.now ≡ take (words_of rows.now local.now.ty) words.now }
{
    let count = words_in(rows, &local.ty).min(words.len() as u64) as usize;
    &words[..count]
}

/// The words of the locals of a function that begins with the words of its parameters.
fn begun_locals(
    alloc: Global,
    p: &Program,
    parameters: u32,
    locals: &[Local],
    words: &[u32],
) -> Result<Items<Words>, NoMemory>
    requires laid_out { IsLaidOut p.now.aggregates }
    requires small { AreSmall p.now locals.now }
    ensures { IfOk result (λ it. it ≡ spec.begun_locals p.now parameters locals.now words.now) }
{
    let rows = p.aggregates.as_slice();
    let mut begun = Items::with_capacity(alloc, locals.len())?;
    let mut rest = words;
    for (i, local) in locals.iter().enumerate() {
        let is_parameter = i < parameters as usize;
        let own = local_words(alloc, p, is_parameter, local, rest)?;
        begun.push(own)?;
        rest = behind(rows, local, rest);
    }
    Ok(begun)
}

/// An item behind others.
fn pushed<'p>(items: &mut Items<Item<'p>>, item: Item<'p>) -> Result<(), NoMemory>
    ensures { OnOk result (map item_of items.new ≡ map item_of items.old ++ item_of item.entry ∷ []) }
{
    items.push(item)?;
    Ok(())
}

/// The store of a parameter, where it lies in the shared block, behind others.
fn put_parameter<'p>(
    alloc: Global,
    rows: &[Aggregate],
    line: u32,
    number: u32,
    local: &Local,
    words: &[u32],
    items: &mut Items<Item<'p>>,
) -> Result<(), NoMemory>
    requires { IsLaidOut rows.now }
    ensures { OnOk result (map item_of items.new ≡ map item_of items.old ++ (if local.now.is_shared then parts.item line (item.StoreParameter number (take (words_of rows.now local.now.ty) words.now)) ∷ [] else [])) }
{
    if !local.is_shared {
        return Ok(());
    }
    let own = first_words(rows, local, words);
    let words = Items::from_slice(alloc, own)?;
    let work = Work::Calling(Calling::StoreParameter { number, words });
    pushed(items, Item { line, work })?;
    Ok(())
}

/// The stores of those of these parameters that lie in the shared block, in a line.
fn parameter_items<'p>(
    alloc: Global,
    p: &Program,
    line: u32,
    parameters: &[Local],
    words: &[u32],
) -> Result<Items<Item<'p>>, NoMemory>
    requires laid_out { IsLaidOut p.now.aggregates }
    requires few { length parameters.now < 2 ^ 32 }
    ensures { IfOk result (λ it. map item_of it ≡ map (parts.item line) (spec.parameter_work p.now 0 (length parameters.now) parameters.now words.now)) }
{
    let rows = p.aggregates.as_slice();
    let mut items = Items::new(alloc);
    let mut rest = words;
    for (i, local) in parameters.iter().enumerate() {
        put_parameter(alloc, rows, line, i as u32, local, rest, &mut items)?;
        rest = behind(rows, local, rest);
    }
    Ok(items)
}

/// The stores of those parameters of a function that lie in the shared block, in the line of its name.
fn stored_items<'p>(
    alloc: Global,
    p: &Program,
    f: &Function,
    words: &[u32],
) -> Result<Items<Item<'p>>, NoMemory>
    requires { IsLaidOut p.now.aggregates }
    ensures { IfOk result (λ it. map item_of it ≡ map (parts.item f.now.line) (spec.parameter_work p.now 0 f.now.parameters f.now.locals words.now)) }
{
    let locals = f.locals.as_slice();
    let count = (f.parameters as usize).min(locals.len());
    let parts = locals.split_at(count);
    parameter_items(alloc, p, f.line, parts.0, words)
}

/// A shared block is to be taken.
fn takes_block<'p>(alloc: Global, line: u32) -> Result<Items<Item<'p>>, NoMemory>
    ensures { IfOk result (λ it. map item_of it ≡ map (parts.item line) (item.TakeBlock ∷ item.SetBlock ∷ [])) }
{
    let mut items = Items::new(alloc);
    items.push(Item {
        line,
        work: Work::Calling(Calling::TakeBlock),
    })?;
    items.push(Item {
        line,
        work: Work::Calling(Calling::SetBlock),
    })?;
    Ok(items)
}

/// The shared block of a function is to be taken, where it has one.
fn block_items<'p>(alloc: Global, f: &Function) -> Result<Items<Item<'p>>, NoMemory>
    ensures { IfOk result (λ it. map item_of it ≡ map (parts.item f.now.line) (spec.block_work f.now.locals)) }
{
    if any_shared(f.locals.as_slice()) {
        takes_block(alloc, f.line)
    } else {
        Ok(Items::new(alloc))
    }
}

/// What a function that begins with these words is to do: its shared block and parameters, and then its body.
fn begun_items<'p>(
    alloc: Global,
    p: &Program,
    f: &'p Function,
    words: &[u32],
) -> Result<Stack<Item<'p>>, NoMemory>
    requires { IsLaidOut p.now.aggregates }
    ensures { IfOk result (λ it. map item_of it ≡ spec.begun_items p.now f.now words.now) }
{
    let mut items = block_items(alloc, f)?;
    let stores = stored_items(alloc, p, f, words)?;
    items.append(stores)?;
    let body = to_do(alloc, &f.body)?;
    items.push(body)?;
    Ok(Stack::from_vec(items.into_vec()))
}

/// The frame of a function that begins with these words.
fn begun_function<'p>(
    alloc: Global,
    p: &'p Program,
    number: u32,
    f: &'p Function,
    words: &[u32],
) -> Result<Frame<'p>, NoMemory>
    requires laid_out { IsLaidOut p.now.aggregates }
    requires small { AreSmall p.now f.now.locals }
    ensures { IfOk result (λ it. frame_of it ≡ spec.begun_function p.now number (Some f.now) words.now) }
{
    let count = f.around.len().min(words.len());
    let parts = words.split_at(count);
    let turns = Items::new(alloc);
    let found = Stack::new(alloc);
    let around = Items::from_slice(alloc, parts.0)?;
    let locals = begun_locals(alloc, p, f.parameters, f.locals.as_slice(), words)?;
    let items = begun_items(alloc, p, f, words)?;
    Ok(Frame {
        function: number,
        locals,
        block: 0,
        around,
        turns,
        items,
        found,
    })
}

/// A frame with nothing in it.
fn no_function<'p>(alloc: Global, number: u32) -> Frame<'p>
    ensures { (p : Program) (words : List ℕ) → frame_of result ≡ spec.begun_function p number None words }
{
    let locals = Items::new(alloc);
    let around = Items::new(alloc);
    let turns = Items::new(alloc);
    let items = Stack::new(alloc);
    let found = Stack::new(alloc);
    Frame {
        function: number,
        locals,
        block: 0,
        around,
        turns,
        items,
        found,
    }
}

/// The frame of the function of that number, which begins with these words: its arguments, or for a branch of a par the
/// addresses of the blocks round it.
pub fn begun<'p>(
    alloc: Global,
    p: &'p Program,
    number: u32,
    words: &[u32],
) -> Result<Frame<'p>, NoMemory>
    requires laid_out { IsLaidOut p.now.aggregates }
    requires fits { BeginFits p.now number }
    ensures { IfOk result (λ it. frame_of it ≡ spec.begun p.now number words.now) }
{
    if is_numbered(p, number) {
        let functions = p.functions.as_slice();
        let at = number as usize;
        let frame = begun_function(alloc, p, number, &functions[at], words)?;
        Ok(frame)
    } else {
        Ok(no_function(alloc, number))
    }
}

fn starts<'p>(alloc: Global, p: &'p Program, start: Start) -> Result<Control<'p>, NoMemory>
    requires laid_out { IsLaidOut p.now.aggregates }
    requires fits { BeginFits p.now start.code }
    ensures { IfOk result (λ c. control_of c ≡ meaning.start p.now start) }
{
    let mut frames = Stack::new(alloc);
    let frame = begun(alloc, p, start.code, start.words.as_slice())?;
    frames.push(frame)?;
    Ok(Control {
        entering: None,
        frames,
    })
}

/// A task that starts with a function.
pub fn start<'p>(alloc: Global, p: &'p Program, start: Start) -> Result<Control<'p>, Unmade>
    requires { IsLaidOut p.now.aggregates }
    ensures control { IfOk result (λ c. control_of c ≡ meaning.start p.now start) }
    ensures why { IfErr result (λ e. Explains e (BeginFits p.now start.code)) }
{
    if begin_fits(p, start.code) {
        Ok(starts(alloc, p, start)?)
    } else {
        Err(Unmade::TooLarge)
    }
}
