//! Running sums of what the pieces of a function add.
ghost use Rattle.std.specs.Prelude.{◌≡◌, ◌≤◌, ◌<◌, ◌+◌, ◌/◌, ◌^◌, ℕ, max, length, slice_get, unwrap_or};
ghost use Rattle.std.specs.Option.{option_copied};
ghost use Rattle.al_typed.specs.Capped.{capped};
ghost use Rattle.al_typed.specs.Layout.{IsLaidOut, layout, words_of, size_of};
ghost use Rattle.al_typed.specs.Types as types;
ghost use Rattle.al_typed.specs.Measures as spec;
ghost use Rattle.al_typed.specs.Measures.{counted, node};
ghost use Rattle.al_typed.specs.Typed.{local_types, parameter_types};
ghost use Rattle.al_typed.specs.declared.piece.Piece.TheVariants as piece;

use crate::expression::PrintPiece;
use crate::layout::room_of;
use crate::program::{Aggregate, Function, Local, Program};
use crate::ty::Ty;

/// The words that a value of a type takes, at most 2^64 - 1.
#[tactic(auto, unfolding(crate::specs::Layout::words_of))]
pub fn words(aggregates: &[Aggregate], ty: &Ty) -> u64
    requires { IsLaidOut aggregates.now }
    ensures { result ≡ capped (words_of aggregates.now ty.now) }
{
    if is_array(ty) {
        1
    } else {
        room_of(aggregates, ty).units
    }
}

#[tactic(auto, unfolding(crate::specs::Types::is_array))]
fn is_array(ty: &Ty) -> bool
    ensures { result ≡ types.is_array ty.now }
{
    matches!(ty, Ty::Array { .. })
}

/// What the pieces so far add. Each is at most 2^64 - 1.
#[derive(Clone, Copy)]
pub struct Tally {
    pub weight: u64,
    pub slots: u64,
    /// The greatest size of a value that is copied whole.
    pub width: u64,
}

/// A piece that adds so much.
fn add(tally: &mut Tally, weight: u64, slots: u64)
    ensures weight { tally.new.weight ≡ capped (tally.old.weight + weight) }
    ensures slots { tally.new.slots ≡ capped (tally.old.slots + slots) }
    ensures width { tally.new.width ≡ tally.old.width }
{
    tally.weight = tally.weight.saturating_add(weight);
    tally.slots = tally.slots.saturating_add(slots);
}

/// A statement.
#[tactic(auto, unfolding(crate::specs::Measures::counted, crate::specs::Measures::weight_of, crate::specs::Measures::slots_of, crate::specs::Measures::width_of))]
pub fn statement(p: &Program, tally: &mut Tally)
    ensures { tally.new ≡ counted p.now tally.old piece.Statement }
{
    add(tally, 1, 4);
}

/// A list of local declarations.
#[tactic(auto, unfolding(crate::specs::Measures::counted, crate::specs::Measures::weight_of, crate::specs::Measures::slots_of, crate::specs::Measures::width_of))]
pub fn declaration(p: &Program, tally: &mut Tally)
    ensures { tally.new ≡ counted p.now tally.old piece.Declaration }
{
    add(tally, 1, 0);
}

/// An expression whose words are taken as one.
#[tactic(auto, unfolding(crate::specs::Measures::counted, crate::specs::Measures::weight_of, crate::specs::Measures::slots_of, crate::specs::Measures::width_of))]
pub fn named(p: &Program, tally: &mut Tally)
    ensures { tally.new ≡ counted p.now tally.old piece.Named }
{
    add(tally, 2, 2);
}

/// An iterator.
#[tactic(auto, unfolding(crate::specs::Measures::counted, crate::specs::Measures::weight_of, crate::specs::Measures::slots_of, crate::specs::Measures::width_of))]
pub fn iterator(p: &Program, tally: &mut Tally)
    ensures { tally.new ≡ counted p.now tally.old piece.Iterator }
{
    add(tally, 0, 2);
}

/// An expression with a value of that type.
#[tactic(auto, unfolding(crate::specs::Measures::counted, crate::specs::Measures::weight_of, crate::specs::Measures::slots_of, crate::specs::Measures::width_of))]
pub fn value(p: &Program, ty: &Ty, tally: &mut Tally)
    requires { IsLaidOut p.now.aggregates }
    ensures { tally.new ≡ counted p.now tally.old (piece.Value ty.now) }
{
    let words = words(p.aggregates.as_slice(), ty).saturating_add(1);
    add(tally, words, words);
}

/// An expression with a value of that type, whose words may be taken as one.
pub fn node(p: &Program, is_named: bool, ty: &Ty, tally: &mut Tally)
    requires { IsLaidOut p.now.aggregates }
    ensures { tally.new ≡ counted p.now tally.old (spec.node is_named ty.now) }
{
    if is_named {
        named(p, tally)
    } else {
        value(p, ty, tally)
    }
}

/// The length of a string constant.
fn string_length(p: &Program, number: u32) -> u64
    ensures { result ≡ spec.string_length p.now number }
{
    match p.strings.get(number as usize) {
        None => 0,
        Some(bytes) => bytes.len() as u64,
    }
}

/// A string constant.
#[tactic(auto, unfolding(crate::specs::Measures::counted, crate::specs::Measures::weight_of, crate::specs::Measures::slots_of, crate::specs::Measures::width_of))]
pub fn text(p: &Program, number: u32, tally: &mut Tally)
    ensures { tally.new ≡ counted p.now tally.old (piece.Text number) }
{
    add(tally, string_length(p, number) / 4, 0);
}

/// How many bytes a part of a format stands as in the text.
fn piece_length(part: PrintPiece) -> u64
    ensures { result ≡ spec.piece_length part }
{
    match part {
        PrintPiece::Byte(_) => 1,
        _ => 2,
    }
}

/// How many bytes a format has in the text, at most 2^64 - 1.
fn format_length(format: &[PrintPiece]) -> u64
    ensures { result ≡ capped (spec.format_length format.now) }
{
    let mut length: u64 = 0;
    for part in format {
        length = length.saturating_add(piece_length(*part));
    }
    length
}

/// The format of a print.
#[tactic(auto, unfolding(crate::specs::Measures::counted, crate::specs::Measures::weight_of, crate::specs::Measures::slots_of, crate::specs::Measures::width_of))]
pub fn format(p: &Program, format: &[PrintPiece], tally: &mut Tally)
    ensures { tally.new ≡ counted p.now tally.old (piece.Format (spec.format_length format.now)) }
{
    add(tally, format_length(format), 0);
}

/// A send or a receive of a value of that type.
#[tactic(auto, unfolding(crate::specs::Measures::counted, crate::specs::Measures::weight_of, crate::specs::Measures::slots_of, crate::specs::Measures::width_of))]
pub fn talk(p: &Program, ty: &Ty, tally: &mut Tally)
    requires { IsLaidOut p.now.aggregates }
    ensures { tally.new ≡ counted p.now tally.old (piece.Talk ty.now) }
{
    add(
        tally,
        0,
        words(p.aggregates.as_slice(), ty).saturating_add(4),
    );
}

/// A branch of an alt for values of that type.
#[tactic(auto, unfolding(crate::specs::Measures::counted, crate::specs::Measures::weight_of, crate::specs::Measures::slots_of, crate::specs::Measures::width_of))]
pub fn alt_branch(p: &Program, ty: &Ty, tally: &mut Tally)
    requires { IsLaidOut p.now.aggregates }
    ensures { tally.new ≡ counted p.now tally.old (piece.AltBranch ty.now) }
{
    add(
        tally,
        2,
        words(p.aggregates.as_slice(), ty).saturating_add(4),
    );
}

/// How many functions are round the branch of a par of that number.
fn branch_words(p: &Program, number: u32) -> u64
    ensures { result ≡ spec.branch_words (slice_get p.now.functions number) }
{
    let number = number as usize;
    if number < p.functions.len() {
        p.functions[number].around.len() as u64
    } else {
        0
    }
}

/// A branch of a par.
#[tactic(auto, unfolding(crate::specs::Measures::counted, crate::specs::Measures::weight_of, crate::specs::Measures::slots_of, crate::specs::Measures::width_of))]
pub fn par_branch(p: &Program, number: u32, tally: &mut Tally)
    ensures { tally.new ≡ counted p.now tally.old (piece.ParBranch number) }
{
    add(tally, 2, branch_words(p, number).saturating_add(4));
}

/// A value of that type that is copied whole.
#[tactic(auto, unfolding(crate::specs::Measures::counted, crate::specs::Measures::weight_of, crate::specs::Measures::slots_of, crate::specs::Measures::width_of))]
pub fn copied(p: &Program, ty: &Ty, tally: &mut Tally)
    requires { IsLaidOut p.now.aggregates }
    ensures { tally.new ≡ counted p.now tally.old (piece.Copied ty.now) }
{
    add(tally, 0, 0);
    tally.width = tally.width.max(room_of(p.aggregates.as_slice(), ty).size);
}

/// The words of values of these types, at most 2^64 - 1.
fn words_in(p: &Program, locals: &[Local]) -> u64
    requires { IsLaidOut p.now.aggregates }
    ensures { result ≡ capped (spec.words_in p.now (local_types locals.now)) }
{
    let mut sum: u64 = 0;
    for local in locals {
        sum = sum.saturating_add(words(p.aggregates.as_slice(), &local.ty));
    }
    sum
}

/// The words of the parameters of a function.
pub fn parameter_words(p: &Program, f: &Function) -> u64
    requires { IsLaidOut p.now.aggregates }
    ensures { result ≡ capped (spec.words_in p.now (parameter_types f.now)) }
{
    let count = (f.parameters as usize).min(f.locals.len());
    words_in(p, &f.locals.as_slice()[..count])
}

/// The words of the arguments of the function of that number.
fn argument_words(p: &Program, number: u32) -> u64
    requires { IsLaidOut p.now.aggregates }
    ensures { result ≡ capped (spec.argument_words p.now (slice_get p.now.functions number)) }
{
    let number = number as usize;
    if number < p.functions.len() {
        parameter_words(p, &p.functions[number])
    } else {
        0
    }
}

/// The call of a proc or a task.
#[tactic(auto, unfolding(crate::specs::Measures::counted, crate::specs::Measures::weight_of, crate::specs::Measures::slots_of, crate::specs::Measures::width_of))]
pub fn started(p: &Program, number: u32, tally: &mut Tally)
    requires { IsLaidOut p.now.aggregates }
    ensures { tally.new ≡ counted p.now tally.old (piece.Start number) }
{
    add(tally, 0, argument_words(p, number).saturating_add(4));
}
