//! Values of places, read and written.
ghost use Rattle.std.specs.Prelude.{◌≡◌, [], ◌∷◌, drop, map, slice_get, slice_index, slice_set, unwrap_or, IfOk, IfErr};
ghost use Rattle.al_typed.specs.Layout.{IsLaidOut};
ghost use Rattle.al_meaning.specs.Evaluate as spec;
ghost use Rattle.al_meaning.specs.Here as here;
ghost use Rattle.al_meaning.specs.Items as item;
ghost use Rattle.al_meaning.specs.Step as step;
ghost use Rattle.al_meaning.specs.Words.{fitted_to};
ghost use Rattle.al_control_values.specs.Fits.{IsSmall};
ghost use Rattle.al_control.specs.Fits.{Explains};
ghost use Rattle.al_control.specs.Models.{found_of, here_of, next_of, storage_of};
ghost use Rattle.al_walk_places.specs.Fits.{ParameterFits, StorageFits, StoredFits};

use crate::places::{local_at, local_found};
use crate::updates::{clear, step_place, update};
use al_base::NoMemory;
use al_control::{
    Found, Here, Next, Stack, Storage, Taken, Unmade, Work, address, asks, does, finds, gives,
    lost, moves, place, two_values, value, word,
};
use al_control_values::{bits, fitted_to, is_small, one_word, stepped_by, sum};
use al_event::{Act, Words};
use al_items::Items;
use al_typed::{Program, Ty, Unit, units};
use al_variables::{locals_of, private_value, with_private};
use std::alloc::Global;

/// The place that a pointer leads to, so many bytes further on.
fn point<'p>(offset: u32, h: Here<'p>) -> Result<Next<'p>, NoMemory>
    ensures { IfOk result (λ n. next_of n ≡ step.step_work (item.Point offset) (here_of h.entry)) }
{
    match word(h)? {
        Taken::Lost(next) => Ok(next),
        Taken::Took(at, h) => finds(h, Found::Address(sum(at as u64, offset as u64))),
    }
}

/// The place of an element.
fn index<'p>(size: u32, h: Here<'p>) -> Result<Next<'p>, NoMemory>
    ensures { IfOk result (λ n. next_of n ≡ step.step_work (item.Index size) (here_of h.entry)) }
{
    match two_values(h)? {
        Taken::Lost(next) => Ok(next),
        Taken::Took(both, h) => {
            let (base, index) = both;
            let at = stepped_by(false, size, bits(base.as_slice()), bits(index.as_slice()));
            finds(h, Found::Address(at))
        }
    }
}

/// The place of a member.
fn within<'p>(offset: u32, h: Here<'p>) -> Result<Next<'p>, NoMemory>
    ensures { IfOk result (λ n. next_of n ≡ step.step_work (item.Within offset) (here_of h.entry)) }
{
    match address(h)? {
        Taken::Lost(next) => Ok(next),
        Taken::Took(at, h) => finds(h, Found::Address(sum(at as u64, offset as u64))),
    }
}

/// The address of a place, as a value.
fn address_of<'p>(alloc: Global, h: Here<'p>) -> Result<Next<'p>, NoMemory>
    ensures { IfOk result (λ n. next_of n ≡ step.step_work item.AddressOf (here_of h.entry)) }
{
    match address(h)? {
        Taken::Lost(next) => Ok(next),
        Taken::Took(at, h) => {
            let words = one_word(alloc, at)?;
            gives(h, words)
        }
    }
}

/// The units of a type, where it is small.
fn small_units(alloc: Global, p: &Program, ty: &Ty) -> Result<Vec<Unit>, Unmade>
    requires { IsLaidOut p.now.aggregates }
    ensures next { IfOk result (λ us. us.items ≡ here.units_in p.now ty.now) }
    ensures why { IfErr result (λ e. Explains e (IsSmall p.now ty.now)) }
{
    if !is_small(p, ty) {
        return Err(Unmade::TooLarge);
    }
    Ok(units(alloc, p, ty)?)
}

/// The units of a type, the first at hand.
fn units_of(alloc: Global, p: &Program, ty: &Ty) -> Result<Stack<Unit>, Unmade>
    requires { IsLaidOut p.now.aggregates }
    ensures next { IfOk result (λ us. us ≡ here.units_in p.now ty.now) }
    ensures why { IfErr result (λ e. Explains e (IsSmall p.now ty.now)) }
{
    Ok(Stack::from_vec(small_units(alloc, p, ty)?))
}

/// The words of a private local, none where there is no such local.
fn local_words(alloc: Global, locals: &[Words], number: u32) -> Result<Words, NoMemory>
    ensures { IfOk result (λ ws. ws ≡ unwrap_or (slice_get locals.now number) []) }
{
    match locals.get(number as usize) {
        Some(words) => Items::from_slice(alloc, words.as_slice()),
        None => Ok(Items::new(alloc)),
    }
}

/// The value of a place in shared storage.
fn read_shared<'p>(alloc: Global, ty: &'p Ty, at: u32, h: Here<'p>) -> Result<Next<'p>, Unmade>
    requires { IsLaidOut h.program.now.aggregates }
    ensures next { IfOk result (λ n. next_of n ≡ spec.read_place ty.now (item.Address at) (here_of h.entry)) }
    ensures why { IfErr result (λ e. Explains e (IsSmall h.entry.program.now ty.now)) }
{
    let units = units_of(alloc, h.program, ty)?;
    let got = Items::new(alloc);
    Ok(does(h, Work::Storage(Storage::Fetch { at, units, got }))?)
}

/// The value of a private local.
fn read_local<'p>(alloc: Global, ty: &'p Ty, number: u32, h: Here<'p>) -> Result<Next<'p>, NoMemory>
    ensures { IfOk result (λ n. next_of n ≡ spec.read_place ty.now (item.Local number) (here_of h.entry)) }
{
    let words = local_words(alloc, h.frame.locals.as_slice(), number)?;
    gives(h, words)
}

/// The value of a private global.
fn read_private<'p>(
    alloc: Global,
    ty: &'p Ty,
    number: u32,
    h: Here<'p>,
) -> Result<Next<'p>, NoMemory>
    requires { IsLaidOut h.program.now.aggregates }
    ensures { IfOk result (λ n. next_of n ≡ spec.read_place ty.now (item.Private number) (here_of h.entry)) }
{
    let words = private_value(alloc, h.program, number, ty, h.privates.as_slice())?;
    gives(h, words)
}

/// The value of a place.
fn read_place<'p>(alloc: Global, ty: &'p Ty, found: Found, h: Here<'p>) -> Result<Next<'p>, Unmade>
    requires { IsLaidOut h.program.now.aggregates }
    ensures next { IfOk result (λ n. next_of n ≡ spec.read_place ty.now (found_of found) (here_of h.entry)) }
    ensures why { IfErr result (λ e. Explains e (IsSmall h.entry.program.now ty.now)) }
{
    match found {
        Found::Address(at) => read_shared(alloc, ty, at, h),
        Found::Local(number) => Ok(read_local(alloc, ty, number, h)?),
        Found::Private(number) => Ok(read_private(alloc, ty, number, h)?),
        Found::Words(_) => Ok(lost(h)?),
        Found::Nowhere => Ok(lost(h)?),
    }
}

/// Reads the place that was found last.
fn read<'p>(alloc: Global, ty: &'p Ty, h: Here<'p>) -> Result<Next<'p>, Unmade>
    requires { IsLaidOut h.program.now.aggregates }
    ensures next { IfOk result (λ n. next_of n ≡ step.step_work (item.Read ty.now) (here_of h.entry)) }
    ensures why { IfErr result (λ e. Explains e (IsSmall h.entry.program.now ty.now)) }
{
    match place(h)? {
        Taken::Lost(next) => Ok(next),
        Taken::Took(found, h) => read_place(alloc, ty, found, h),
    }
}

/// The next load of a value, or the whole value.
fn fetch<'p>(at: u32, units: Stack<Unit>, got: Words, h: Here<'p>) -> Result<Next<'p>, NoMemory>
    ensures { IfOk result (λ n. next_of n ≡ spec.fetch_units at units got (here_of h.entry)) }
{
    let mut units = units;
    match units.pop() {
        None => gives(h, got),
        Some(unit) => {
            let load = Act::Load {
                at: sum(at as u64, unit.at as u64),
                size: unit.size,
            };
            asks(h, load, Work::Storage(Storage::Fetched { at, units, got }))
        }
    }
}

/// A word of a value was loaded.
fn fetched<'p>(at: u32, units: Stack<Unit>, got: Words, h: Here<'p>) -> Result<Next<'p>, NoMemory>
    ensures { IfOk result (λ n. next_of n ≡ step.step_work (item.Fetched at units got) (here_of h.entry)) }
{
    match word(h)? {
        Taken::Lost(next) => Ok(next),
        Taken::Took(word, h) => {
            let mut got = got;
            got.push(word)?;
            does(h, Work::Storage(Storage::Fetch { at, units, got }))
        }
    }
}

/// Takes the first word away, 0 where there is none.
fn first(words: &mut Stack<u32>) -> u32
    ensures word { result ≡ slice_index words.old 0 }
    ensures rest { words.new ≡ drop 1 words.old }
{
    match words.pop() {
        None => 0,
        Some(word) => word,
    }
}

/// The next store of a value.
fn write<'p>(
    at: u32,
    units: Stack<Unit>,
    words: Stack<u32>,
    h: Here<'p>,
) -> Result<Next<'p>, NoMemory>
    ensures { IfOk result (λ n. next_of n ≡ spec.write_units at units words (here_of h.entry)) }
{
    let mut units = units;
    match units.pop() {
        None => moves(h),
        Some(unit) => {
            let mut words = words;
            let word = first(&mut words);
            let store = Act::Store {
                at: sum(at as u64, unit.at as u64),
                size: unit.size,
                word,
            };
            asks(h, store, Work::Storage(Storage::Write { at, units, words }))
        }
    }
}

/// Puts words in the place of a private local. Where there is no such local, nothing changes.
fn set_local(locals: &mut Items<Words>, number: u32, words: Words)
    ensures { locals.new ≡ slice_set locals.old number words }
{
    let number = number as usize;
    if number < locals.len() {
        locals.set(number, words);
    }
}

/// Puts a value into a place in shared storage.
fn save_shared<'p>(
    alloc: Global,
    ty: &'p Ty,
    words: Words,
    at: u32,
    h: Here<'p>,
) -> Result<Next<'p>, Unmade>
    requires { IsLaidOut h.program.now.aggregates }
    ensures next { IfOk result (λ n. next_of n ≡ spec.save_at ty.now words (item.Address at) (here_of h.entry)) }
    ensures why { IfErr result (λ e. Explains e (IsSmall h.entry.program.now ty.now)) }
{
    let units = units_of(alloc, h.program, ty)?;
    let words = Stack::from_vec(words.into_vec());
    Ok(does(h, Work::Storage(Storage::Write { at, units, words }))?)
}

/// Puts a value into a private local.
fn save_local<'p>(ty: &'p Ty, words: Words, number: u32, h: Here<'p>) -> Result<Next<'p>, NoMemory>
    ensures { IfOk result (λ n. next_of n ≡ spec.save_at ty.now words (item.Local number) (here_of h.entry)) }
{
    let mut h = h;
    set_local(&mut h.frame.locals, number, words);
    moves(h)
}

/// Puts a value into a private global.
fn save_private<'p>(
    alloc: Global,
    ty: &'p Ty,
    words: Words,
    number: u32,
    h: Here<'p>,
) -> Result<Next<'p>, NoMemory>
    requires { IsLaidOut h.program.now.aggregates }
    ensures { IfOk result (λ n. next_of n ≡ spec.save_at ty.now words (item.Private number) (here_of h.entry)) }
{
    let mut h = h;
    let privates = with_private(
        alloc,
        h.program,
        number,
        words.as_slice(),
        h.privates.as_slice(),
    )?;
    h.privates = privates;
    moves(h)
}

/// Puts a value into a place.
fn save_at<'p>(
    alloc: Global,
    ty: &'p Ty,
    words: Words,
    place: Found,
    h: Here<'p>,
) -> Result<Next<'p>, Unmade>
    requires { IsLaidOut h.program.now.aggregates }
    ensures next { IfOk result (λ n. next_of n ≡ spec.save_at ty.now words (found_of place) (here_of h.entry)) }
    ensures why { IfErr result (λ e. Explains e (IsSmall h.entry.program.now ty.now)) }
{
    match place {
        Found::Address(at) => save_shared(alloc, ty, words, at, h),
        Found::Local(number) => Ok(save_local(ty, words, number, h)?),
        Found::Private(number) => Ok(save_private(alloc, ty, words, number, h)?),
        Found::Nowhere => Ok(moves(h)?),
        Found::Words(_) => Ok(lost(h)?),
    }
}

/// A value is put into the place that was found last.
fn put_words<'p>(ty: &'p Ty, words: Words, h: Here<'p>) -> Result<Next<'p>, NoMemory>
    ensures { IfOk result (λ n. next_of n ≡ here.with_place (here_of h.entry) (λ f at. here.does at (item.Save ty.now words f ∷ []))) }
{
    match place(h)? {
        Taken::Lost(next) => Ok(next),
        Taken::Took(place, h) => does(h, Work::Storage(Storage::Save { ty, words, place })),
    }
}

/// A value that was found is put into the place that was found before it.
fn put<'p>(ty: &'p Ty, h: Here<'p>) -> Result<Next<'p>, NoMemory>
    ensures { IfOk result (λ n. next_of n ≡ step.step_work (item.Put ty.now) (here_of h.entry)) }
{
    match value(h)? {
        Taken::Lost(next) => Ok(next),
        Taken::Took(words, h) => put_words(ty, words, h),
    }
}

/// The same of what was found once more.
fn found_copy(alloc: Global, found: &Found) -> Result<Found, NoMemory>
    ensures { IfOk result (λ f. f ≡ found.now) }
{
    match found {
        Found::Words(words) => Ok(Found::Words(Items::from_slice(alloc, words.as_slice())?)),
        Found::Address(at) => Ok(Found::Address(*at)),
        Found::Local(number) => Ok(Found::Local(*number)),
        Found::Private(number) => Ok(Found::Private(*number)),
        Found::Nowhere => Ok(Found::Nowhere),
    }
}

/// Goes on with the value of a place, which is found as well.
fn look_at<'p>(alloc: Global, ty: &'p Ty, found: Found, h: Here<'p>) -> Result<Next<'p>, NoMemory>
    ensures { IfOk result (λ n. next_of n ≡ here.does (here.with_found (found_of found ∷ found_of found ∷ map found_of h.entry.frame.found) (here_of h.entry)) (item.Read ty.now ∷ [])) }
{
    let mut h = h;
    let copy = found_copy(alloc, &found)?;
    h.frame.found.push(copy)?;
    h.frame.found.push(found)?;
    does(h, Work::Storage(Storage::Read(ty)))
}

/// Reads a place and keeps it.
fn look<'p>(alloc: Global, ty: &'p Ty, h: Here<'p>) -> Result<Next<'p>, NoMemory>
    ensures { IfOk result (λ n. next_of n ≡ step.step_work (item.Look ty.now) (here_of h.entry)) }
{
    match place(h)? {
        Taken::Lost(next) => Ok(next),
        Taken::Took(found, h) => look_at(alloc, ty, found, h),
    }
}

/// A value is put into a local of the function at hand, where each word keeps the bytes of its unit.
fn save_fitted<'p>(
    alloc: Global,
    ty: &'p Ty,
    number: u32,
    words: Words,
    h: Here<'p>,
) -> Result<Next<'p>, Unmade>
    requires { IsLaidOut h.program.now.aggregates }
    ensures next { IfOk result (λ n. next_of n ≡ spec.save_at ty.now (fitted_to (here.units_in h.entry.program.now ty.now) words) (spec.local_found h.entry.program.now h.entry.frame.function h.entry.frame.block number) (here_of h.entry)) }
    ensures why { IfErr result (λ e. Explains e (StoredFits h.entry.program.now h.entry.frame.function number ty.now)) }
{
    match local_found(h.program, h.frame.function, h.frame.block, number) {
        None => Err(Unmade::TooLarge),
        Some(place) => {
            let units = small_units(alloc, h.program, ty)?;
            let words = fitted_to(alloc, &units, words.as_slice())?;
            save_at(alloc, ty, words, place, h)
        }
    }
}

/// A parameter of the function at hand that lies in its shared block is stored there.
pub fn store_parameter<'p>(
    alloc: Global,
    number: u32,
    words: Words,
    h: Here<'p>,
) -> Result<Next<'p>, Unmade>
    requires { IsLaidOut h.program.now.aggregates }
    ensures next { IfOk result (λ n. next_of n ≡ step.step_work (item.StoreParameter number words) (here_of h.entry)) }
    ensures why { IfErr result (λ e. Explains e (ParameterFits h.entry.program.now h.entry.frame.function number)) }
{
    match local_at(locals_of(h.program, h.frame.function), number) {
        None => Ok(lost(h)?),
        Some(local) => save_fitted(alloc, &local.ty, number, words, h),
    }
}

/// What is done with places, and with values on the way from or to a place.
pub fn store<'p>(alloc: Global, storage: Storage<'p>, h: Here<'p>) -> Result<Next<'p>, Unmade>
    requires { IsLaidOut h.program.now.aggregates }
    ensures next { IfOk result (λ n. next_of n ≡ step.step_work (storage_of storage.entry) (here_of h.entry)) }
    ensures why { IfErr result (λ e. Explains e (StorageFits h.entry.program.now storage.entry)) }
{
    match storage {
        Storage::Point { offset } => Ok(point(offset, h)?),
        Storage::Index { size } => Ok(index(size, h)?),
        Storage::Within { offset } => Ok(within(offset, h)?),
        Storage::AddressOf => Ok(address_of(alloc, h)?),
        Storage::Read(ty) => read(alloc, ty, h),
        Storage::Look(ty) => Ok(look(alloc, ty, h)?),
        Storage::Fetch { at, units, got } => Ok(fetch(at, units, got, h)?),
        Storage::Fetched { at, units, got } => Ok(fetched(at, units, got, h)?),
        Storage::Save { ty, words, place } => save_at(alloc, ty, words, place, h),
        Storage::Put(ty) => Ok(put(ty, h)?),
        Storage::Write { at, units, words } => Ok(write(at, units, words, h)?),
        Storage::Update { ty, change } => update(alloc, ty, change, h),
        Storage::Step { ty, op } => step_place(alloc, ty, op, h),
        Storage::Clear(ty) => clear(alloc, ty, h),
    }
}
