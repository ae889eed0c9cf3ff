//! Words of slots, read and written where they live.

ghost use Rattle.std.specs.Prelude.{◌≡◌, ◌*◌, ◌^◌, ◌<◌, [], ◌∷◌, ◌++◌, OnOk};
ghost use Rattle.rv_code.specs.Homes.{high_part, frame_load, frame_store, get_code, get_register, put_code, put_register, bring, leave};
ghost use Rattle.rv_emit.specs.Near.{IsNear};

use crate::instrs::{immediate, load, low_part, register, store, upper};
use al_base::NoMemory;
use rv_code::Home;
use rv_isa::instr::{ImmediateOp, Instr, LoadOp, RegisterOp, StoreOp, UpperOp};

/// The register of the frame's first word.
pub const FRAME: u8 = 2;
/// The register that comes near to far words of the frame.
const NEAR: u8 = 8;

/// Register 8 comes near to a far word of the frame.
fn come_near(code: &mut Vec<Instr>, k: u32) -> Result<(), NoMemory>
    requires { k < 2 ^ 20 }
    ensures { OnOk result (code.new.items ≡ code.old.items ++ Instr.Upper UpperOp.Lui 8 (high_part (4 * k)) ∷ Instr.Register RegisterOp.Add 8 8 2 ∷ []) }
{
    upper(code, NEAR, 4 * k)?;
    register(code, RegisterOp::Add, NEAR, NEAR, FRAME)
}

/// Loads word `k` of the frame.
pub fn frame_load(code: &mut Vec<Instr>, rd: u8, k: u32) -> Result<(), NoMemory>
    requires { k < 2 ^ 20 }
    ensures { OnOk result (code.new.items ≡ code.old.items ++ frame_load rd k) }
{
    if k < 512 {
        load(code, LoadOp::Lw, rd, FRAME, (4 * k) as i32)
    } else {
        come_near(code, k)?;
        load(code, LoadOp::Lw, rd, NEAR, low_part(4 * k))
    }
}

/// Stores into word `k` of the frame.
pub fn frame_store(code: &mut Vec<Instr>, rs: u8, k: u32) -> Result<(), NoMemory>
    requires { k < 2 ^ 20 }
    ensures { OnOk result (code.new.items ≡ code.old.items ++ frame_store rs k) }
{
    if k < 512 {
        store(code, StoreOp::Sw, FRAME, rs, (4 * k) as i32)
    } else {
        come_near(code, k)?;
        store(code, StoreOp::Sw, NEAR, rs, low_part(4 * k))
    }
}

/// Reads a slot, into `scratch` where it has no register.
pub fn get(code: &mut Vec<Instr>, home: Home, scratch: u8) -> Result<(), NoMemory>
    requires { IsNear home }
    ensures { OnOk result (code.new.items ≡ code.old.items ++ get_code home scratch) }
{
    match home {
        Home::Frame(k) => frame_load(code, scratch, k),
        Home::Saved(_) => Ok(()),
    }
}

/// The register that has the slot's word then.
pub fn get_register(home: Home, scratch: u8) -> u8
    ensures { result ≡ get_register home scratch }
{
    match home {
        Home::Frame(_) => scratch,
        Home::Saved(r) => r,
    }
}

/// Writes a slot from `scratch`, where it has no register.
pub fn put(code: &mut Vec<Instr>, home: Home, scratch: u8) -> Result<(), NoMemory>
    requires { IsNear home }
    ensures { OnOk result (code.new.items ≡ code.old.items ++ put_code home scratch) }
{
    match home {
        Home::Frame(k) => frame_store(code, scratch, k),
        Home::Saved(_) => Ok(()),
    }
}

/// The register to compute a slot's word into.
pub fn put_register(home: Home, scratch: u8) -> u8
    ensures { result ≡ put_register home scratch }
{
    match home {
        Home::Frame(_) => scratch,
        Home::Saved(r) => r,
    }
}

/// Brings a slot's word into a register.
pub fn bring(code: &mut Vec<Instr>, home: Home, rd: u8) -> Result<(), NoMemory>
    requires { IsNear home }
    ensures { OnOk result (code.new.items ≡ code.old.items ++ bring home rd) }
{
    match home {
        Home::Frame(k) => frame_load(code, rd, k),
        Home::Saved(r) => immediate(code, ImmediateOp::Addi, rd, r, 0),
    }
}

/// Leaves a register's word in a slot.
pub fn leave(code: &mut Vec<Instr>, home: Home, rs: u8) -> Result<(), NoMemory>
    requires { IsNear home }
    ensures { OnOk result (code.new.items ≡ code.old.items ++ leave home rs) }
{
    match home {
        Home::Frame(k) => frame_store(code, rs, k),
        Home::Saved(r) => immediate(code, ImmediateOp::Addi, r, rs, 0),
    }
}
