//! Actions, and texts that are composed.

ghost use Rattle.std.specs.Prelude.{◌≡◌, ◌++◌, OnOk};
ghost use Rattle.rv_form.specs.Template.{template};
ghost use Rattle.rv_emit_ops.specs.Plans.{layout_in};
ghost use Rattle.rv_emit_ops.specs.Emitting.{CanEmit};

use crate::plan::Plan;
use crate::program::runs_of;
use al_base::NoMemory;
use al_event::Block;
use al_ir::{Ir, Op, Slots, TalkBranch};
use al_items::Items;
use rv_emit_acts::{acts, texts, units};
use rv_emit_starts::{starts, talks};
use rv_emit_units::texts::put_text as put_text_at;
use rv_emit_units::units::{Way, value};
use rv_isa::instr::Instr;

/// A load of a unit.
pub fn load(
    code: &mut Vec<Instr>,
    ir: &Ir,
    plan: &Plan,
    f: u32,
    pc: usize,
    to: u32,
    at: u32,
    offset: u32,
    size: u8,
) -> Result<(), NoMemory>
    requires { CanEmit ir.now plan.now f pc (Op.Load to at offset size) }
    ensures { OnOk result (code.new.items ≡ code.old.items ++ template (layout_in ir.now plan.now) f pc (Op.Load to at offset size)) }
{
    units::load_unit(code, plan.home(f, to), plan.home(f, at), offset, size)
}

/// A store of a unit.
pub fn store(
    code: &mut Vec<Instr>,
    ir: &Ir,
    plan: &Plan,
    f: u32,
    pc: usize,
    at: u32,
    offset: u32,
    size: u8,
    from: u32,
) -> Result<(), NoMemory>
    requires { CanEmit ir.now plan.now f pc (Op.Store at offset size from) }
    ensures { OnOk result (code.new.items ≡ code.old.items ++ template (layout_in ir.now plan.now) f pc (Op.Store at offset size from)) }
{
    units::store_unit(code, plan.home(f, at), offset, size, plan.home(f, from))
}

/// Loads of the units of a value.
pub fn load_units(
    code: &mut Vec<Instr>,
    ir: &Ir,
    plan: &Plan,
    f: u32,
    pc: usize,
    to: u32,
    at: u32,
    offset: u32,
    layout: u32,
) -> Result<(), NoMemory>
    requires { CanEmit ir.now plan.now f pc (Op.LoadUnits to at offset layout) }
    ensures { OnOk result (code.new.items ≡ code.old.items ++ template (layout_in ir.now plan.now) f pc (Op.LoadUnits to at offset layout)) }
{
    let runs = runs_of(ir, layout);
    value(code, Way::Loads, plan.home(f, at), offset, runs, to)
}

/// Stores of the units of a value.
pub fn store_units(
    code: &mut Vec<Instr>,
    ir: &Ir,
    plan: &Plan,
    f: u32,
    pc: usize,
    at: u32,
    offset: u32,
    layout: u32,
    from: u32,
) -> Result<(), NoMemory>
    requires { CanEmit ir.now plan.now f pc (Op.StoreUnits at offset layout from) }
    ensures { OnOk result (code.new.items ≡ code.old.items ++ template (layout_in ir.now plan.now) f pc (Op.StoreUnits at offset layout from)) }
{
    let runs = runs_of(ir, layout);
    value(code, Way::Stores, plan.home(f, at), offset, runs, from)
}

/// Stores of 0 in the units of a value.
pub fn clear_units(
    code: &mut Vec<Instr>,
    ir: &Ir,
    plan: &Plan,
    f: u32,
    pc: usize,
    at: u32,
    offset: u32,
    layout: u32,
) -> Result<(), NoMemory>
    requires { CanEmit ir.now plan.now f pc (Op.ClearUnits at offset layout) }
    ensures { OnOk result (code.new.items ≡ code.old.items ++ template (layout_in ir.now plan.now) f pc (Op.ClearUnits at offset layout)) }
{
    let runs = runs_of(ir, layout);
    value(code, Way::Clears, plan.home(f, at), offset, runs, 0)
}

/// A new block.
pub fn alloc_block(
    code: &mut Vec<Instr>,
    ir: &Ir,
    plan: &Plan,
    f: u32,
    pc: usize,
    to: u32,
    bytes: u32,
    kind: Block,
) -> Result<(), NoMemory>
    requires { CanEmit ir.now plan.now f pc (Op.Alloc to bytes kind) }
    ensures { OnOk result (code.new.items ≡ code.old.items ++ template (layout_in ir.now plan.now) f pc (Op.Alloc to bytes kind)) }
{
    acts::alloc_block(code, plan.home(f, to), bytes, kind)
}

/// A block is given back.
pub fn free_block(
    code: &mut Vec<Instr>,
    ir: &Ir,
    plan: &Plan,
    f: u32,
    pc: usize,
    at: u32,
    kind: Block,
) -> Result<(), NoMemory>
    requires { CanEmit ir.now plan.now f pc (Op.Free at kind) }
    ensures { OnOk result (code.new.items ≡ code.old.items ++ template (layout_in ir.now plan.now) f pc (Op.Free at kind)) }
{
    acts::free_block(code, plan.home(f, at), kind)
}

/// A new channel.
pub fn new_chan(
    code: &mut Vec<Instr>,
    ir: &Ir,
    plan: &Plan,
    f: u32,
    pc: usize,
    to: u32,
    capacity: u32,
    words: u32,
) -> Result<(), NoMemory>
    requires { CanEmit ir.now plan.now f pc (Op.NewChan to capacity words) }
    ensures { OnOk result (code.new.items ≡ code.old.items ++ template (layout_in ir.now plan.now) f pc (Op.NewChan to capacity words)) }
{
    acts::new_chan(code, plan.home(f, to), capacity, words)
}

/// A channel is given up.
pub fn free_chan(
    code: &mut Vec<Instr>,
    ir: &Ir,
    plan: &Plan,
    f: u32,
    pc: usize,
    chan: u32,
) -> Result<(), NoMemory>
    requires { CanEmit ir.now plan.now f pc (Op.FreeChan chan) }
    ensures { OnOk result (code.new.items ≡ code.old.items ++ template (layout_in ir.now plan.now) f pc (Op.FreeChan chan)) }
{
    acts::free_chan(code, plan.home(f, chan))
}

/// Whether a receive would go.
pub fn can_recv(
    code: &mut Vec<Instr>,
    ir: &Ir,
    plan: &Plan,
    f: u32,
    pc: usize,
    to: u32,
    chan: u32,
) -> Result<(), NoMemory>
    requires { CanEmit ir.now plan.now f pc (Op.CanRecv to chan) }
    ensures { OnOk result (code.new.items ≡ code.old.items ++ template (layout_in ir.now plan.now) f pc (Op.CanRecv to chan)) }
{
    acts::ask_chan(code, 8, plan.home(f, to), plan.home(f, chan))
}

/// Whether a send would go.
pub fn can_send(
    code: &mut Vec<Instr>,
    ir: &Ir,
    plan: &Plan,
    f: u32,
    pc: usize,
    to: u32,
    chan: u32,
) -> Result<(), NoMemory>
    requires { CanEmit ir.now plan.now f pc (Op.CanSend to chan) }
    ensures { OnOk result (code.new.items ≡ code.old.items ++ template (layout_in ir.now plan.now) f pc (Op.CanSend to chan)) }
{
    acts::ask_chan(code, 9, plan.home(f, to), plan.home(f, chan))
}

/// A talk.
pub fn talk(
    code: &mut Vec<Instr>,
    ir: &Ir,
    plan: &Plan,
    f: u32,
    pc: usize,
    branches: &Items<TalkBranch>,
    records: u32,
    to: u32,
    got: u32,
) -> Result<(), NoMemory>
    requires { CanEmit ir.now plan.now f pc (Op.Talk branches.now records to got) }
    ensures { OnOk result (code.new.items ≡ code.old.items ++ template (layout_in ir.now plan.now) f pc (Op.Talk branches.now records to got)) }
{
    match plan.homes.get(f as usize) {
        Some(homes) => talks::talk(code, homes, branches.as_slice(), records, to, got),
        None => Err(NoMemory),
    }
}

/// A proc starts.
pub fn proc(
    code: &mut Vec<Instr>,
    ir: &Ir,
    plan: &Plan,
    f: u32,
    pc: usize,
    function: u32,
    arguments: u32,
    words: u32,
) -> Result<(), NoMemory>
    requires { CanEmit ir.now plan.now f pc (Op.Proc function arguments words) }
    ensures { OnOk result (code.new.items ≡ code.old.items ++ template (layout_in ir.now plan.now) f pc (Op.Proc function arguments words)) }
{
    acts::start(code, 11, function, arguments, words)
}

/// A task starts.
pub fn task(
    code: &mut Vec<Instr>,
    ir: &Ir,
    plan: &Plan,
    f: u32,
    pc: usize,
    function: u32,
    arguments: u32,
    words: u32,
) -> Result<(), NoMemory>
    requires { CanEmit ir.now plan.now f pc (Op.Task function arguments words) }
    ensures { OnOk result (code.new.items ≡ code.old.items ++ template (layout_in ir.now plan.now) f pc (Op.Task function arguments words)) }
{
    acts::start(code, 12, function, arguments, words)
}

/// Procs start, and are waited for.
pub fn par(
    code: &mut Vec<Instr>,
    ir: &Ir,
    plan: &Plan,
    f: u32,
    pc: usize,
    functions: &Slots,
    arguments: u32,
    words: u32,
    records: u32,
) -> Result<(), NoMemory>
    requires { CanEmit ir.now plan.now f pc (Op.Par functions.now arguments words records) }
    ensures { OnOk result (code.new.items ≡ code.old.items ++ template (layout_in ir.now plan.now) f pc (Op.Par functions.now arguments words records)) }
{
    starts::par(code, functions.as_slice(), arguments, words, records)
}

/// A character.
pub fn put_character(
    code: &mut Vec<Instr>,
    ir: &Ir,
    plan: &Plan,
    f: u32,
    pc: usize,
    from: u32,
) -> Result<(), NoMemory>
    requires { CanEmit ir.now plan.now f pc (Op.PutCharacter from) }
    ensures { OnOk result (code.new.items ≡ code.old.items ++ template (layout_in ir.now plan.now) f pc (Op.PutCharacter from)) }
{
    texts::put_character(code, plan.home(f, from))
}

/// A hexadecimal number.
pub fn put_hex(
    code: &mut Vec<Instr>,
    ir: &Ir,
    plan: &Plan,
    f: u32,
    pc: usize,
    from: u32,
) -> Result<(), NoMemory>
    requires { CanEmit ir.now plan.now f pc (Op.PutHex from) }
    ensures { OnOk result (code.new.items ≡ code.old.items ++ template (layout_in ir.now plan.now) f pc (Op.PutHex from)) }
{
    texts::put_hex(code, plan.home(f, from))
}

/// A decimal number.
pub fn put_decimal(
    code: &mut Vec<Instr>,
    ir: &Ir,
    plan: &Plan,
    f: u32,
    pc: usize,
    signed: bool,
    from: u32,
) -> Result<(), NoMemory>
    requires { CanEmit ir.now plan.now f pc (Op.PutDecimal signed from) }
    ensures { OnOk result (code.new.items ≡ code.old.items ++ template (layout_in ir.now plan.now) f pc (Op.PutDecimal signed from)) }
{
    texts::put_decimal(code, signed, plan.home(f, from))
}

/// A decimal number of a pair.
pub fn put_long_decimal(
    code: &mut Vec<Instr>,
    ir: &Ir,
    plan: &Plan,
    f: u32,
    pc: usize,
    signed: bool,
    from: u32,
) -> Result<(), NoMemory>
    requires { CanEmit ir.now plan.now f pc (Op.PutLongDecimal signed from) }
    ensures { OnOk result (code.new.items ≡ code.old.items ++ template (layout_in ir.now plan.now) f pc (Op.PutLongDecimal signed from)) }
{
    let (low, high) = (plan.home(f, from), plan.home(f, from + 1));
    texts::put_long_decimal(code, signed, low, high)
}

/// A hexadecimal number of a pair.
pub fn put_long_hex(
    code: &mut Vec<Instr>,
    ir: &Ir,
    plan: &Plan,
    f: u32,
    pc: usize,
    from: u32,
) -> Result<(), NoMemory>
    requires { CanEmit ir.now plan.now f pc (Op.PutLongHex from) }
    ensures { OnOk result (code.new.items ≡ code.old.items ++ template (layout_in ir.now plan.now) f pc (Op.PutLongHex from)) }
{
    let (low, high) = (plan.home(f, from), plan.home(f, from + 1));
    texts::put_long_hex(code, low, high)
}

/// A text up to a 0.
pub fn put_text(
    code: &mut Vec<Instr>,
    ir: &Ir,
    plan: &Plan,
    f: u32,
    pc: usize,
    at: u32,
) -> Result<(), NoMemory>
    requires { CanEmit ir.now plan.now f pc (Op.PutText at) }
    ensures { OnOk result (code.new.items ≡ code.old.items ++ template (layout_in ir.now plan.now) f pc (Op.PutText at)) }
{
    put_text_at(code, plan.home(f, at))
}

/// The program ends.
pub fn terminate(
    code: &mut Vec<Instr>,
    ir: &Ir,
    plan: &Plan,
    f: u32,
    pc: usize,
    status: u32,
) -> Result<(), NoMemory>
    requires { CanEmit ir.now plan.now f pc (Op.Terminate status) }
    ensures { OnOk result (code.new.items ≡ code.old.items ++ template (layout_in ir.now plan.now) f pc (Op.Terminate status)) }
{
    texts::terminate(code, plan.home(f, status))
}
