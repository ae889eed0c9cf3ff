//! Frames and their variables.
ghost use Rattle.std.specs.Prelude.{◌≡◌, ◌++◌, map, slice_get, OnOk};
ghost use Rattle.al_meaning.specs.Calls.{line_of_name};
ghost use Rattle.al_meaning.specs.Places.{function_at};
ghost use Rattle.al_control.specs.Models.{frame_of, item_of};
ghost use Rattle.al_step_text.specs.Frames as spec;

use al_base::NoMemory;
use al_control::{Frame, Item, Stack};
use al_event::{Bytes, Words};
use al_items::Items;
use al_typed::{Aggregate, Local, Program};
use al_value_text::{put_decimal, put_value};
use al_variables::locals_of;
use std::alloc::Global;

// ---- variables

fn put_variable(
    alloc: Global,
    out: &mut Bytes,
    rows: &[Aggregate],
    local: &Local,
    words: &[u32],
) -> Result<(), NoMemory>
    ensures { OnOk result (out.new ≡ out.old ++ spec.variable_line rows.now local.now words.now) }
{
    if local.is_shared {
        return Ok(());
    }
    out.extend_from_slice(b"var ")?;
    out.extend_from_slice(local.name.as_slice())?;
    out.extend_from_slice(b" ")?;
    put_value(alloc, out, rows, &local.ty, words)?;
    out.extend_from_slice(b"\n")
}

/// Puts the line of the variable of a number, if there is one.
#[tactic(auto, using(crate::proofs::FirstItems::elements_at))]
fn put_variable_at(
    alloc: Global,
    out: &mut Bytes,
    rows: &[Aggregate],
    locals: &[Local],
    values: &[Words],
    number: usize,
) -> Result<(), NoMemory>
    ensures { OnOk result (out.new ≡ out.old ++ spec.variable_at rows.now locals.now values.now number) }
{
    if number >= locals.len() {
        return Ok(());
    }
    if number >= values.len() {
        return Ok(());
    }
    let words = values[number].as_slice();
    put_variable(alloc, out, rows, &locals[number], words)
}

#[tactic(auto, using(crate::proofs::RangesAre::variables_are))]
fn put_variables(
    alloc: Global,
    out: &mut Bytes,
    rows: &[Aggregate],
    locals: &[Local],
    values: &[Words],
) -> Result<(), NoMemory>
    ensures { OnOk result (out.new ≡ out.old ++ spec.all_variables rows.now locals.now values.now) }
{
    for number in 0..locals.len() {
        put_variable_at(alloc, out, rows, locals, values, number)?;
    }
    Ok(())
}

// ---- frames

/// Puts the name of a function; nothing where there is no such function.
fn put_name(out: &mut Bytes, p: &Program, function: u32) -> Result<(), NoMemory>
    ensures { OnOk result (out.new ≡ out.old ++ spec.name_of (function_at p.now function)) }
{
    let functions = p.functions.as_slice();
    let number = function as usize;
    if number < functions.len() {
        out.extend_from_slice(functions[number].name.as_slice())
    } else {
        Ok(())
    }
}

/// The line of the name of a function, 0 where there is no such function.
fn line_of_name(p: &Program, function: u32) -> u32
    ensures { result ≡ line_of_name (function_at p.now function) }
{
    let functions = p.functions.as_slice();
    let number = function as usize;
    if number < functions.len() {
        functions[number].line
    } else {
        0
    }
}

/// The line of the first item, if there is one, else this one.
#[tactic(auto, using(crate::proofs::FirstItems::elements_are, crate::proofs::FirstLines::lines_are))]
fn first_line(line: u32, items: &Stack<Item>) -> u32
    ensures { result ≡ spec.first_line line (slice_get (map item_of items.now) 0) }
{
    let rows = items.backwards();
    let count = rows.len();
    if count == 0 {
        return line;
    }
    rows[count - 1].line
}

fn put_function(out: &mut Bytes, p: &Program, function: u32) -> Result<(), NoMemory>
    ensures { OnOk result (out.new ≡ out.old ++ spec.function_part p.now function) }
{
    out.extend_from_slice(b" f")?;
    put_decimal(out, u64::from(function))?;
    out.extend_from_slice(b" ")?;
    put_name(out, p, function)
}

fn put_line_part(out: &mut Bytes, p: &Program, frame: &Frame) -> Result<(), NoMemory>
    ensures { OnOk result (out.new ≡ out.old ++ spec.line_part p.now (frame_of frame.now)) }
{
    out.extend_from_slice(b" line ")?;
    let line = first_line(line_of_name(p, frame.function), &frame.items);
    put_decimal(out, u64::from(line))?;
    out.extend_from_slice(b"\n")
}

fn put_frame_line(
    out: &mut Bytes,
    p: &Program,
    number: usize,
    frame: &Frame,
) -> Result<(), NoMemory>
    ensures { OnOk result (out.new ≡ out.old ++ spec.frame_line p.now number (frame_of frame.now)) }
{
    out.extend_from_slice(b"frame ")?;
    put_decimal(out, number as u64)?;
    put_function(out, p, frame.function)?;
    put_line_part(out, p, frame)
}

fn put_frame(
    alloc: Global,
    out: &mut Bytes,
    p: &Program,
    number: usize,
    frame: &Frame,
) -> Result<(), NoMemory>
    ensures { OnOk result (out.new ≡ out.old ++ spec.frame_lines p.now number (frame_of frame.now)) }
{
    put_frame_line(out, p, number, frame)?;
    put_variables(
        alloc,
        out,
        p.aggregates.as_slice(),
        locals_of(p, frame.function),
        frame.locals.as_slice(),
    )
}

/// Puts the lines of the frame of a number, the innermost being 0.
#[tactic(auto, using(crate::proofs::FirstItems::elements_are))]
fn put_frame_at(
    alloc: Global,
    out: &mut Bytes,
    p: &Program,
    frames: &Stack<Frame>,
    number: usize,
) -> Result<(), NoMemory>
    ensures { OnOk result (out.new ≡ out.old ++ spec.frame_at p.now (map frame_of frames.now) number) }
{
    let rows = frames.backwards();
    if number >= rows.len() {
        return Ok(());
    }
    put_frame(alloc, out, p, number, &rows[rows.len() - 1 - number])
}

/// Puts the frames of a task, the innermost first.
#[tactic(auto, using(crate::proofs::RangesAre::frames_are))]
pub(crate) fn put_frames(
    alloc: Global,
    out: &mut Bytes,
    p: &Program,
    frames: &Stack<Frame>,
) -> Result<(), NoMemory>
    ensures { OnOk result (out.new ≡ out.old ++ spec.all_frames p.now (map frame_of frames.now)) }
{
    for number in 0..frames.backwards().len() {
        put_frame_at(alloc, out, p, frames, number)?;
    }
    Ok(())
}
