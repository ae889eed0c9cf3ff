//! Texts that print composes.
ghost use Rattle.std.specs.Prelude.{◌≡◌, ◌+◌, ◌<◌, nat_lt, ◌∷◌, length, map, IfOk, IfErr};
ghost use Rattle.al_meaning.specs.Evaluate as spec;
ghost use Rattle.al_meaning.specs.Items as item;
ghost use Rattle.al_meaning.specs.Shown.{most_text};
ghost use Rattle.al_meaning.specs.Step as step;
ghost use Rattle.al_control.specs.Fits.{Explains};
ghost use Rattle.al_control.specs.Models.{argument_of, here_of, next_of};
ghost use Rattle.al_typed.specs.declared.expression.PrintPiece.TheVariants as print;
ghost use Rattle.al_walk_actions.specs.Fits.{ByteFits};
ghost use Rattle.al_walk_actions.specs.Shows.{IsShown, shows};

use crate::written::{one_byte, written};
use al_base::{NoMemory, Trap};
use al_control::{
    Action, Argument, Here, Next, Stack, Taken, Unmade, Work, asks, does, lost, traps, word,
};
use al_control_values::{split_word, sum};
use al_event::{Act, Bytes};
use al_typed::PrintPiece;
use std::alloc::Global;

/// Whether a text with these bytes more is too long.
fn is_past(text: &Bytes, more: &Bytes) -> bool
    ensures { result ≡ nat_lt most_text (length text.now + length more.now) }
{
    let own = text.len();
    let further = more.len();
    let all = own.saturating_add(further);
    all > 1024
}

/// The text with these bytes more: the first one past the most traps.
fn composes<'p>(
    pieces: &'p [PrintPiece],
    arguments: Stack<Argument<'p>>,
    text: Bytes,
    more: Bytes,
    h: Here<'p>,
) -> Result<Next<'p>, NoMemory>
    ensures { IfOk result (λ n. next_of n ≡ spec.composes (here_of h.entry) pieces.now (map argument_of arguments.entry) text more) }
{
    if is_past(&text, &more) {
        return traps(h, Trap::Print);
    }
    let mut text = text;
    text.append(more)?;
    let compose = Action::Compose {
        pieces,
        arguments,
        text,
    };
    does(h, Work::Action(compose))
}

/// The text that a pointer leads to is read next.
fn composes_text<'p>(
    argument: Argument<'p>,
    pieces: &'p [PrintPiece],
    arguments: Stack<Argument<'p>>,
    text: Bytes,
    h: Here<'p>,
) -> Result<Next<'p>, NoMemory>
    ensures { IfOk result (λ n. next_of n ≡ spec.compose (print.Text ∷ pieces.now) (argument_of argument.entry ∷ map argument_of arguments.entry) text (here_of h.entry)) }
{
    let cut = split_word(argument.words.as_slice());
    let scan = Action::Scan {
        at: cut.0,
        pieces,
        arguments,
        text,
    };
    does(h, Work::Action(scan))
}

/// A verb that shows an argument that was found.
fn shows_argument<'p>(
    alloc: Global,
    verb: PrintPiece,
    argument: Argument<'p>,
    pieces: &'p [PrintPiece],
    arguments: Stack<Argument<'p>>,
    text: Bytes,
    h: Here<'p>,
) -> Result<Next<'p>, NoMemory>
    ensures { IfOk result (λ n. next_of n ≡ shows (here_of h.entry) verb pieces.now (argument_of argument.entry ∷ map argument_of arguments.entry) text) }
{
    let more = written(alloc, verb, argument.ty, argument.words.as_slice())?;
    composes(pieces, arguments, text, more, h)
}

/// A verb that shows the next argument.
fn shows_next<'p>(
    alloc: Global,
    verb: PrintPiece,
    pieces: &'p [PrintPiece],
    arguments: Stack<Argument<'p>>,
    text: Bytes,
    h: Here<'p>,
) -> Result<Next<'p>, NoMemory>
    requires { IsShown verb }
    ensures { IfOk result (λ n. next_of n ≡ spec.compose (verb ∷ pieces.now) (map argument_of arguments.entry) text (here_of h.entry)) }
{
    let mut arguments = arguments;
    match arguments.pop() {
        None => lost(h),
        Some(argument) => shows_argument(alloc, verb, argument, pieces, arguments, text, h),
    }
}

/// The text that the next argument leads to.
fn composes_next_text<'p>(
    pieces: &'p [PrintPiece],
    arguments: Stack<Argument<'p>>,
    text: Bytes,
    h: Here<'p>,
) -> Result<Next<'p>, NoMemory>
    ensures { IfOk result (λ n. next_of n ≡ spec.compose (print.Text ∷ pieces.now) (map argument_of arguments.entry) text (here_of h.entry)) }
{
    let mut arguments = arguments;
    match arguments.pop() {
        None => lost(h),
        Some(argument) => composes_text(argument, pieces, arguments, text, h),
    }
}

/// The next part of a format.
fn composes_piece<'p>(
    alloc: Global,
    piece: PrintPiece,
    pieces: &'p [PrintPiece],
    arguments: Stack<Argument<'p>>,
    text: Bytes,
    h: Here<'p>,
) -> Result<Next<'p>, NoMemory>
    ensures { IfOk result (λ n. next_of n ≡ spec.compose (piece ∷ pieces.now) (map argument_of arguments.entry) text (here_of h.entry)) }
{
    match piece {
        PrintPiece::Byte(byte) => composes(pieces, arguments, text, one_byte(alloc, byte)?, h),
        PrintPiece::Percent => composes(pieces, arguments, text, one_byte(alloc, b'%')?, h),
        PrintPiece::Text => composes_next_text(pieces, arguments, text, h),
        PrintPiece::Signed => shows_next(alloc, PrintPiece::Signed, pieces, arguments, text, h),
        PrintPiece::Unsigned => {
            shows_next(alloc, PrintPiece::Unsigned, pieces, arguments, text, h)
        }
        PrintPiece::Hexadecimal => {
            shows_next(alloc, PrintPiece::Hexadecimal, pieces, arguments, text, h)
        }
        PrintPiece::Character => {
            shows_next(alloc, PrintPiece::Character, pieces, arguments, text, h)
        }
    }
}

/// The next part of a format, or the whole text is put out.
pub fn compose<'p>(
    alloc: Global,
    pieces: &'p [PrintPiece],
    arguments: Stack<Argument<'p>>,
    text: Bytes,
    h: Here<'p>,
) -> Result<Next<'p>, NoMemory>
    ensures { IfOk result (λ n. next_of n ≡ step.step_work (item.Compose pieces.now (map argument_of arguments.entry) text) (here_of h.entry)) }
{
    match pieces.split_first() {
        None => asks(h, Act::Print { text }, Work::Answered),
        Some(parts) => composes_piece(alloc, *parts.0, parts.1, arguments, text, h),
    }
}

/// The byte of a text at an address is asked for.
pub fn scan<'p>(
    at: u32,
    pieces: &'p [PrintPiece],
    arguments: Stack<Argument<'p>>,
    text: Bytes,
    h: Here<'p>,
) -> Result<Next<'p>, NoMemory>
    ensures { IfOk result (λ n. next_of n ≡ step.step_work (item.Scan at pieces.now (map argument_of arguments.entry) text) (here_of h.entry)) }
{
    let scanned = Action::Scanned {
        at,
        pieces,
        arguments,
        text,
    };
    asks(h, Act::Load { at, size: 1 }, Work::Action(scanned))
}

/// Whether a text has room for a byte more.
fn has_room(text: &Bytes) -> bool
    ensures { result ≡ nat_lt (length text.now) most_text }
{
    text.len() < 1024
}

/// A byte but 0 of a text was read: the first one past the most traps.
fn scans_on<'p>(
    byte: u8,
    at: u32,
    pieces: &'p [PrintPiece],
    arguments: Stack<Argument<'p>>,
    text: Bytes,
    h: Here<'p>,
) -> Result<Next<'p>, NoMemory>
    requires { 0 < byte }
    ensures { IfOk result (λ n. next_of n ≡ spec.scanned byte at pieces.now (map argument_of arguments.entry) text (here_of h.entry)) }
{
    if !has_room(&text) {
        return traps(h, Trap::Print);
    }
    let mut text = text;
    text.push(byte)?;
    let scan = Action::Scan {
        at: sum(at as u64, 1),
        pieces,
        arguments,
        text,
    };
    does(h, Work::Action(scan))
}

/// A byte of a text was read. The text goes on to a 0.
#[tactic(auto, using(crate::proofs::Scans::scanned_end))]
fn scanned_byte<'p>(
    byte: u8,
    at: u32,
    pieces: &'p [PrintPiece],
    arguments: Stack<Argument<'p>>,
    text: Bytes,
    h: Here<'p>,
) -> Result<Next<'p>, NoMemory>
    ensures { IfOk result (λ n. next_of n ≡ spec.scanned byte at pieces.now (map argument_of arguments.entry) text (here_of h.entry)) }
{
    if byte > 0 {
        return scans_on(byte, at, pieces, arguments, text, h);
    }
    let compose = Action::Compose {
        pieces,
        arguments,
        text,
    };
    does(h, Work::Action(compose))
}

/// A word was read, of which only a byte goes on.
fn scanned_word<'p>(
    word: u32,
    at: u32,
    pieces: &'p [PrintPiece],
    arguments: Stack<Argument<'p>>,
    text: Bytes,
    h: Here<'p>,
) -> Result<Next<'p>, Unmade>
    ensures next { IfOk result (λ n. next_of n ≡ spec.scanned word at pieces.now (map argument_of arguments.entry) text (here_of h.entry)) }
    ensures why { IfErr result (λ e. Explains e (word < 256)) }
{
    if word < 256 {
        Ok(scanned_byte(word as u8, at, pieces, arguments, text, h)?)
    } else {
        Err(Unmade::TooLarge)
    }
}

/// The word of a byte of a text was found.
pub fn scanned<'p>(
    at: u32,
    pieces: &'p [PrintPiece],
    arguments: Stack<Argument<'p>>,
    text: Bytes,
    h: Here<'p>,
) -> Result<Next<'p>, Unmade>
    ensures next { IfOk result (λ n. next_of n ≡ step.step_work (item.Scanned at pieces.now (map argument_of arguments.entry) text) (here_of h.entry)) }
    ensures why { IfErr result (λ e. Explains e (ByteFits (here_of h.entry).frame.found)) }
{
    match word(h)? {
        Taken::Lost(next) => Ok(next),
        Taken::Took(byte, h) => scanned_word(byte, at, pieces, arguments, text, h),
    }
}
