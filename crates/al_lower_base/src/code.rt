//! Lists of operations, and those that go through the words of a value.
ghost use Rattle.std.specs.Prelude.{◌≡◌, ◌+◌, ◌++◌, ◌∷◌, [], ◌<◌, ◌^◌, IfOk, OnOk};
ghost use Rattle.al_lower_code.specs.Homes.{operation};
ghost use Rattle.al_lower_code.specs.Moving as spec;

use al_base::NoMemory;
use al_ir::{Op, Operation};
use al_items::Items;
use al_typed::Unit;

/// Operations, one behind the other.
pub type Code = Items<Operation>;

/// The slot so many behind another. Where there is no number for it there is no memory for the frame either.
pub fn slot_behind(slot: u32, count: u32) -> Result<u32, NoMemory>
    ensures { IfOk result (λ it. it ≡ slot + count) }
{
    match slot.checked_add(count) {
        Some(it) => Ok(it),
        None => Err(NoMemory),
    }
}

/// Adds an operation in a line.
pub fn push(code: &mut Code, line: u32, op: Op) -> Result<(), NoMemory>
    ensures { OnOk result (code.new ≡ code.old ++ operation line op ∷ []) }
{
    code.push(Operation { line, op })
}

/// These words, each into a slot.
pub fn constants(code: &mut Code, line: u32, to: u32, words: &[u32]) -> Result<(), NoMemory>
    ensures { OnOk result (code.new ≡ code.old ++ spec.constants line to words.now) }
{
    let mut into = to;
    for word in words {
        push(
            code,
            line,
            Op::Constant {
                to: into,
                word: *word,
            },
        )?;
        into = slot_behind(into, 1)?;
    }
    Ok(())
}

/// So many slots from one on are copied to as many from another on, the first one first.
pub fn copies(code: &mut Code, line: u32, to: u32, from: u32, n: u32) -> Result<(), NoMemory>
    ensures { OnOk result (code.new ≡ code.old ++ spec.copies line to from n) }
{
    let (mut into, mut of, mut left) = (to, from, n);
    while left > 0 {
        push(code, line, Op::Copy { to: into, from: of })?;
        into = slot_behind(into, 1)?;
        of = slot_behind(of, 1)?;
        left -= 1;
    }
    Ok(())
}

/// The same, but nothing where they stand there already.
pub fn moves(code: &mut Code, line: u32, to: u32, from: u32, n: u32) -> Result<(), NoMemory>
    ensures { OnOk result (code.new ≡ code.old ++ spec.moves line to from n) }
{
    if to == from {
        return Ok(());
    }
    copies(code, line, to, from, n)
}

/// Zero into so many slots.
pub fn zeros(code: &mut Code, line: u32, to: u32, n: u32) -> Result<(), NoMemory>
    ensures { OnOk result (code.new ≡ code.old ++ spec.zeros line to n) }
{
    if n == 0 {
        return Ok(());
    }
    push(code, line, Op::Zero { to, count: n })
}

/// The words that a call left, from one of them on.
pub fn results(code: &mut Code, line: u32, to: u32, word: u32, n: u32) -> Result<(), NoMemory>
    ensures { OnOk result (code.new ≡ code.old ++ spec.results line to word n) }
{
    let (mut into, mut of, mut left) = (to, word, n);
    while left > 0 {
        push(code, line, Op::Result { to: into, word: of })?;
        into = slot_behind(into, 1)?;
        of = slot_behind(of, 1)?;
        left -= 1;
    }
    Ok(())
}

/// Words that were received keep the bytes of their units.
pub fn trims(code: &mut Code, line: u32, at: u32, units: &[Unit]) -> Result<(), NoMemory>
    ensures { OnOk result (code.new ≡ code.old ++ spec.trims line at units.now) }
{
    let mut slot = at;
    for unit in units {
        if unit.size != 4 {
            push(
                code,
                line,
                Op::Extract {
                    to: slot,
                    from: slot,
                    skip: 0,
                    size: unit.size,
                },
            )?;
        }
        slot = slot_behind(slot, 1)?;
    }
    Ok(())
}

/// Words of private globals into slots.
pub fn gets(code: &mut Code, line: u32, to: u32, place: u32, n: u32) -> Result<(), NoMemory>
    ensures { OnOk result (code.new ≡ code.old ++ spec.gets line to place n) }
{
    let (mut into, mut of, mut left) = (to, place, n);
    while left > 0 {
        push(
            code,
            line,
            Op::GetPrivate {
                to: into,
                place: of,
            },
        )?;
        into = slot_behind(into, 1)?;
        of = slot_behind(of, 1)?;
        left -= 1;
    }
    Ok(())
}

/// Slots into words of private globals.
pub fn puts(code: &mut Code, line: u32, place: u32, from: u32, n: u32) -> Result<(), NoMemory>
    ensures { OnOk result (code.new ≡ code.old ++ spec.puts line place from n) }
{
    let (mut into, mut of, mut left) = (place, from, n);
    while left > 0 {
        push(
            code,
            line,
            Op::PutPrivate {
                place: into,
                from: of,
            },
        )?;
        into = slot_behind(into, 1)?;
        of = slot_behind(of, 1)?;
        left -= 1;
    }
    Ok(())
}

/// One slot into each of so many words of private globals.
pub fn puts_same(code: &mut Code, line: u32, place: u32, from: u32, n: u32) -> Result<(), NoMemory>
    ensures { OnOk result (code.new ≡ code.old ++ spec.puts_same line place from n) }
{
    let (mut into, mut left) = (place, n);
    while left > 0 {
        push(code, line, Op::PutPrivate { place: into, from })?;
        into = slot_behind(into, 1)?;
        left -= 1;
    }
    Ok(())
}

/// Units behind an address that a slot has, and so many bytes further on, into slots.
pub fn loads(
    code: &mut Code,
    line: u32,
    to: u32,
    slot: u32,
    offset: u32,
    units: &[Unit],
) -> Result<(), NoMemory>
    ensures { OnOk result (code.new ≡ code.old ++ spec.loads line to slot offset units.now) }
{
    let mut into = to;
    for unit in units {
        push(
            code,
            line,
            Op::Load {
                to: into,
                at: slot,
                offset: offset.wrapping_add(unit.at),
                size: unit.size,
            },
        )?;
        into = slot_behind(into, 1)?;
    }
    Ok(())
}

/// Slots into units behind an address.
pub fn stores(
    code: &mut Code,
    line: u32,
    slot: u32,
    offset: u32,
    from: u32,
    units: &[Unit],
) -> Result<(), NoMemory>
    ensures { OnOk result (code.new ≡ code.old ++ spec.stores line slot offset from units.now) }
{
    let mut of = from;
    for unit in units {
        push(
            code,
            line,
            Op::Store {
                at: slot,
                offset: offset.wrapping_add(unit.at),
                size: unit.size,
                from: of,
            },
        )?;
        of = slot_behind(of, 1)?;
    }
    Ok(())
}

/// One slot into each unit behind an address.
pub fn stores_same(
    code: &mut Code,
    line: u32,
    slot: u32,
    offset: u32,
    from: u32,
    units: &[Unit],
) -> Result<(), NoMemory>
    ensures { OnOk result (code.new ≡ code.old ++ spec.stores_same line slot offset from units.now) }
{
    for unit in units {
        push(
            code,
            line,
            Op::Store {
                at: slot,
                offset: offset.wrapping_add(unit.at),
                size: unit.size,
                from,
            },
        )?;
    }
    Ok(())
}
