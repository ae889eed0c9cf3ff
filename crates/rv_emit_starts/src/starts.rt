//! Starts of several procs at once.

ghost use Rattle.std.specs.Prelude.{◌≡◌, ◌+◌, ◌*◌, ◌^◌, ◌<◌, ◌≤◌, ◌++◌, length, OnOk};
ghost use Rattle.rv_form.specs.Acts.{start_records, par_code};

use al_base::NoMemory;
use rv_emit_acts::acts::{call_on_records, start_record};
use rv_isa::instr::Instr;

/// The records of starts with the same words, from word `k` of the frame on.
fn start_records(
    code: &mut Vec<Instr>,
    arguments: u32,
    words: u32,
    functions: &[u32],
    k: u32,
) -> Result<(), NoMemory>
    requires arguments { arguments < 2 ^ 20 }
    requires record_words { k + 3 * length functions.now ≤ 2 ^ 20 }
    ensures { OnOk result (code.new.items ≡ code.old.items ++ start_records arguments words functions.now k) }
{
    let mut at = k;
    for function in functions {
        start_record(code, arguments, words, *function, at)?;
        at += 3;
    }
    Ok(())
}

/// Starts a proc for each function, with its records from word `records` of the frame on.
pub fn par(
    code: &mut Vec<Instr>,
    functions: &[u32],
    arguments: u32,
    words: u32,
    records: u32,
) -> Result<(), NoMemory>
    requires few { length functions.now ≤ 64 }
    requires arguments { arguments < 2 ^ 20 }
    requires record_words { records + 3 * length functions.now ≤ 2 ^ 19 }
    ensures { OnOk result (code.new.items ≡ code.old.items ++ par_code functions.now arguments words records) }
{
    start_records(code, arguments, words, functions, records)?;
    call_on_records(code, records, functions.len() as u32, 13)
}
