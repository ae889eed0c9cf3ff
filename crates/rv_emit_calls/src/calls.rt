//! Calls and returns.

ghost use Rattle.std.specs.Prelude.{◌≡◌, ◌+◌, ◌^◌, ◌<◌, ◌≤◌, ◌++◌, OnOk};
ghost use Rattle.rv_regs.specs.Homes.{home_at};
ghost use Rattle.rv_form.specs.Flow.{pass, invoke_code, become_code, invoke_pointer_code, show, leave_code, take_arguments, prologue};

use al_base::NoMemory;
use rv_emit::homes::{bring, frame_load, frame_store};
use rv_emit::instrs::jump_by;
use rv_emit::pieces::{down, turn, up};
use rv_emit_acts::acts::pass_word;
use rv_emit_acts::homes::home_of;
use rv_emit_jumps::calls::{show_word, take_word, test_found, test_found_stack, test_stack};
use rv_emit_jumps::jumps::{go, link};
use rv_isa::instr::Instr;
use rv_regs::Homes;

/// So many words from slot `from` on, into those of the frame from word `to` on.
pub fn pass(
    code: &mut Vec<Instr>,
    homes: &Homes,
    from: u32,
    to: u32,
    count: u32,
) -> Result<(), NoMemory>
    requires slots { from + count ≤ 2 ^ 20 }
    requires words { to + count ≤ 2 ^ 20 }
    ensures { OnOk result (code.new.items ≡ code.old.items ++ pass (home_at homes.now) from to count) }
{
    let (mut slot, mut word, mut left) = (from, to, count);
    while left > 0 {
        pass_word(code, home_of(homes, slot), word)?;
        slot += 1;
        word += 1;
        left -= 1;
    }
    Ok(())
}

/// Shows so many words of a function's result in its frame, from slot `from` on.
fn show(code: &mut Vec<Instr>, homes: &Homes, from: u32, count: u32) -> Result<(), NoMemory>
    requires { from + count ≤ 2 ^ 20 }
    ensures { OnOk result (code.new.items ≡ code.old.items ++ show (home_at homes.now) from count) }
{
    let (mut slot, mut left) = (from, count);
    while left > 0 {
        show_word(code, home_of(homes, slot), slot)?;
        slot += 1;
        left -= 1;
    }
    Ok(())
}

/// Takes so many of a function's arguments from its frame, from slot `from` on.
fn take_arguments(
    code: &mut Vec<Instr>,
    homes: &Homes,
    from: u32,
    count: u32,
) -> Result<(), NoMemory>
    requires { from + count ≤ 2 ^ 20 }
    ensures { OnOk result (code.new.items ≡ code.old.items ++ take_arguments (home_at homes.now) from count) }
{
    let (mut slot, mut left) = (from, count);
    while left > 0 {
        take_word(code, home_of(homes, slot), slot)?;
        slot += 1;
        left -= 1;
    }
    Ok(())
}

/// A call; `above` is the frame of the function at hand, and `words` that of the function that is called.
pub fn invoke(
    code: &mut Vec<Instr>,
    homes: &Homes,
    above: u32,
    words: u32,
    entry: u32,
    arguments: u32,
    count: u32,
) -> Result<(), NoMemory>
    requires above { above ≤ 2 ^ 14 }
    requires words { words ≤ 2 ^ 14 }
    requires entry { entry ≤ 2 ^ 24 }
    requires slots { arguments + count ≤ 2 ^ 14 }
    ensures { OnOk result (code.new.items ≡ code.old.items ++ invoke_code (home_at homes.now) above words entry arguments count) }
{
    turn(code)?;
    test_stack(code, above, words, entry)?;
    pass(code, homes, arguments, above, count)?;
    up(code, above)?;
    link(code, entry)?;
    down(code, above)
}

/// A call in the place of the function at hand, whose way back stands in word `back`.
pub fn become_function(
    code: &mut Vec<Instr>,
    homes: &Homes,
    back: u32,
    words: u32,
    entry: u32,
    arguments: u32,
    count: u32,
) -> Result<(), NoMemory>
    requires back { back ≤ 2 ^ 14 }
    requires words { words ≤ 2 ^ 14 }
    requires entry { entry ≤ 2 ^ 24 }
    requires slots { arguments + count ≤ 2 ^ 14 }
    ensures { OnOk result (code.new.items ≡ code.old.items ++ become_code (home_at homes.now) back words entry arguments count) }
{
    turn(code)?;
    test_stack(code, 0, words, entry)?;
    frame_load(code, 1, back)?;
    pass(code, homes, arguments, 0, count)?;
    go(code, entry)
}

/// A call of the function that a dispatcher finds.
pub fn invoke_pointer(
    code: &mut Vec<Instr>,
    homes: &Homes,
    above: u32,
    dispatcher: u32,
    pointer: u32,
    arguments: u32,
    count: u32,
) -> Result<(), NoMemory>
    requires above { above ≤ 2 ^ 14 }
    requires dispatcher { dispatcher ≤ 2 ^ 24 }
    requires pointer { pointer < 2 ^ 14 }
    requires slots { arguments + count ≤ 2 ^ 14 }
    ensures { OnOk result (code.new.items ≡ code.old.items ++ invoke_pointer_code (home_at homes.now) above dispatcher pointer arguments count) }
{
    bring(code, home_of(homes, pointer), 10)?;
    link(code, dispatcher)?;
    test_found(code)?;
    turn(code)?;
    test_found_stack(code, above)?;
    pass(code, homes, arguments, above, count)?;
    up(code, above)?;
    jump_by(code, 1, 6, 0)?;
    down(code, above)
}

/// A return, with so many words.
pub fn leave_function(
    code: &mut Vec<Instr>,
    homes: &Homes,
    back: u32,
    words: u32,
) -> Result<(), NoMemory>
    requires back { back ≤ 2 ^ 14 }
    requires words { words ≤ 2 ^ 14 }
    ensures { OnOk result (code.new.items ≡ code.old.items ++ leave_code (home_at homes.now) back words) }
{
    turn(code)?;
    show(code, homes, 0, words)?;
    frame_load(code, 1, back)?;
    jump_by(code, 0, 1, 0)
}

/// A function begins.
pub fn begin(
    code: &mut Vec<Instr>,
    homes: &Homes,
    back: u32,
    arguments: u32,
) -> Result<(), NoMemory>
    requires back { back ≤ 2 ^ 14 }
    requires arguments { arguments ≤ 2 ^ 14 }
    ensures { OnOk result (code.new.items ≡ code.old.items ++ prologue (home_at homes.now) back arguments) }
{
    frame_store(code, 1, back)?;
    take_arguments(code, homes, 0, arguments)
}
