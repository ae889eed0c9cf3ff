//! Addresses in the frame, units that are loaded and stored, and slots that are zeroed.

ghost use Rattle.std.specs.Prelude.{◌≡◌, ◌^◌, ◌<◌, ◌++◌, OnOk};
ghost use Rattle.rv_form.specs.Units.{frame_address, load_op, store_op, load_code, store_code, zero_word};
ghost use Rattle.rv_emit.specs.Near.{IsNear};

use al_base::NoMemory;
use rv_code::Home;
use rv_emit::homes::{FRAME, frame_store, get, get_register, put, put_register};
use rv_emit::instrs::{high_part, immediate, load, low_part, register, store};
use rv_emit::pieces::wide_number;
use rv_emit::words::offset_from;
use rv_isa::instr::{ImmediateOp, Instr, LoadOp, RegisterOp, StoreOp};

/// The address of word `k` of the frame.
pub fn frame_address(code: &mut Vec<Instr>, rd: u8, k: u32) -> Result<(), NoMemory>
    requires { k < 2 ^ 20 }
    ensures { OnOk result (code.new.items ≡ code.old.items ++ frame_address rd k) }
{
    if k < 512 {
        immediate(code, ImmediateOp::Addi, rd, FRAME, (4 * k) as i32)
    } else {
        wide_number(code, rd, 4 * k)?;
        register(code, RegisterOp::Add, rd, rd, FRAME)
    }
}

/// The load of a unit of that size, without a sign.
pub fn load_op(size: u8) -> LoadOp
    ensures { result ≡ load_op size }
{
    if size < 2 {
        LoadOp::Lbu
    } else if size < 4 {
        LoadOp::Lhu
    } else {
        LoadOp::Lw
    }
}

/// The store of a unit of that size.
pub fn store_op(size: u8) -> StoreOp
    ensures { result ≡ store_op size }
{
    if size < 2 {
        StoreOp::Sb
    } else if size < 4 {
        StoreOp::Sh
    } else {
        StoreOp::Sw
    }
}

/// Loads a unit at an address and so many bytes further on.
pub fn load_unit(
    code: &mut Vec<Instr>,
    to: Home,
    at: Home,
    offset: u32,
    size: u8,
) -> Result<(), NoMemory>
    requires to { IsNear to }
    requires at { IsNear at }
    ensures { OnOk result (code.new.items ≡ code.old.items ++ load_code to at offset size) }
{
    get(code, at, 10)?;
    let base = get_register(at, 10);
    let rd = put_register(to, 10);
    if high_part(offset) == 0 {
        load(code, load_op(size), rd, base, low_part(offset))?;
    } else {
        offset_from(code, offset, 12, base)?;
        load(code, load_op(size), rd, 12, 0)?;
    }
    put(code, to, 10)
}

/// Stores a unit at an address and so many bytes further on.
pub fn store_unit(
    code: &mut Vec<Instr>,
    at: Home,
    offset: u32,
    size: u8,
    from: Home,
) -> Result<(), NoMemory>
    requires at { IsNear at }
    requires from { IsNear from }
    ensures { OnOk result (code.new.items ≡ code.old.items ++ store_code at offset size from) }
{
    get(code, at, 10)?;
    get(code, from, 13)?;
    let base = get_register(at, 10);
    let rs = get_register(from, 13);
    if high_part(offset) == 0 {
        store(code, store_op(size), base, rs, low_part(offset))
    } else {
        offset_from(code, offset, 12, base)?;
        store(code, store_op(size), 12, rs, 0)
    }
}

/// A word of 0 into a slot.
pub fn zero_word(code: &mut Vec<Instr>, home: Home) -> Result<(), NoMemory>
    requires { IsNear home }
    ensures { OnOk result (code.new.items ≡ code.old.items ++ zero_word home) }
{
    match home {
        Home::Frame(k) => frame_store(code, 0, k),
        Home::Saved(r) => immediate(code, ImmediateOp::Addi, r, 0, 0),
    }
}
