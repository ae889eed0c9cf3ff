//! Parts of calls and returns.

ghost use Rattle.std.specs.Prelude.{◌≡◌, ◌+◌, ◌*◌, ◌^◌, ◌<◌, ◌≤◌, [], ◌∷◌, ◌++◌, OnOk};
ghost use Rattle.rv_form.specs.Flow.{no_room, last_frame, stack_test, found_test, found_stack_test, show_word, take_word};

use crate::jumps::go;
use al_base::{NoMemory, Trap};
use rv_code::Home;
use rv_emit::homes::{frame_load, frame_store};
use rv_emit::instrs::{branch, jump_by, register};
use rv_emit::pieces::{trap, wide_number};
use rv_isa::addresses::STACK_END;
use rv_isa::instr::{BranchOp, Instr, RegisterOp};

/// Where a call comes that finds no room on the stack.
pub fn no_room(code: &mut Vec<Instr>) -> Result<(), NoMemory>
    ensures { OnOk result (code.new.items ≡ code.old.items ++ no_room) }
{
    trap(code, Trap::Stack)
}

/// The greatest frame at which a function finds room.
pub fn last_frame(above: u32, words: u32) -> u32
    requires above { above ≤ 2 ^ 14 }
    requires words { words ≤ 2 ^ 14 }
    ensures { result ≡ last_frame above words }
{
    STACK_END - 4 * (above + words)
}

/// Tests that there is room for the function whose first word is `entry`.
pub fn test_stack(code: &mut Vec<Instr>, above: u32, words: u32, entry: u32) -> Result<(), NoMemory>
    requires above { above ≤ 2 ^ 14 }
    requires words { words ≤ 2 ^ 14 }
    requires entry { entry ≤ 2 ^ 24 }
    ensures { OnOk result (code.new.items ≡ code.old.items ++ stack_test above words entry) }
{
    wide_number(code, 5, last_frame(above, words))?;
    branch(code, BranchOp::Bgeu, 5, 2, 12)?;
    go(code, entry.saturating_sub(3))
}

/// Traps where a dispatcher found no function.
pub fn test_found(code: &mut Vec<Instr>) -> Result<(), NoMemory>
    ensures { OnOk result (code.new.items ≡ code.old.items ++ found_test) }
{
    branch(code, BranchOp::Bne, 6, 0, 16)?;
    trap(code, Trap::Call)
}

/// Tests that there is room for the function that a dispatcher found.
pub fn test_found_stack(code: &mut Vec<Instr>, above: u32) -> Result<(), NoMemory>
    requires above { above ≤ 2 ^ 14 }
    ensures { OnOk result (code.new.items ≡ code.old.items ++ found_stack_test above) }
{
    wide_number(code, 5, 4 * above)?;
    register(code, RegisterOp::Sub, 7, 7, 5)?;
    branch(code, BranchOp::Bgeu, 7, 2, 8)?;
    jump_by(code, 0, 6, -12)
}

/// A result's word whose home is a register goes to the frame.
pub fn show_word(code: &mut Vec<Instr>, home: Home, k: u32) -> Result<(), NoMemory>
    requires { k < 2 ^ 20 }
    ensures { OnOk result (code.new.items ≡ code.old.items ++ show_word home k) }
{
    match home {
        Home::Frame(_) => Ok(()),
        Home::Saved(r) => frame_store(code, r, k),
    }
}

/// An argument whose home is a register comes from the frame.
pub fn take_word(code: &mut Vec<Instr>, home: Home, k: u32) -> Result<(), NoMemory>
    requires { k < 2 ^ 20 }
    ensures { OnOk result (code.new.items ≡ code.old.items ++ take_word home k) }
{
    match home {
        Home::Frame(_) => Ok(()),
        Home::Saved(r) => frame_load(code, r, k),
    }
}
