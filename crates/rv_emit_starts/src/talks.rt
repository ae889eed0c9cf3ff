//! Talks.

ghost use Rattle.std.specs.Prelude.{◌≡◌, ◌+◌, ◌*◌, ◌^◌, ◌<◌, ◌≤◌, ◌++◌, All, length, OnOk};
ghost use Rattle.rv_regs.specs.Homes.{home_at};
ghost use Rattle.rv_form.specs.Acts.{direction, words_place, branch_record, branch_records, talk_code};
ghost use Rattle.rv_emit_starts.specs.Branches.{IsInFrame};

use al_base::NoMemory;
use al_ir::TalkBranch;
use rv_emit::homes::leave;
use rv_emit_acts::acts::{call_on_records, pass_word, store_address, store_number};
use rv_emit_acts::homes::home_of;
use rv_isa::instr::Instr;
use rv_regs::Homes;

/// 1 for a send, 0 for a receive.
fn direction(send: Option<u32>) -> u32
    ensures { result ≡ direction send }
{
    match send {
        None => 0,
        Some(_) => 1,
    }
}

/// Where the words of a branch stand.
fn words_place(got: u32, send: Option<u32>) -> u32
    ensures { result ≡ words_place got send }
{
    match send {
        None => got,
        Some(t) => t,
    }
}

/// A branch's record, from word `k` of the frame on.
fn branch_record(
    code: &mut Vec<Instr>,
    homes: &Homes,
    got: u32,
    branch: TalkBranch,
    k: u32,
) -> Result<(), NoMemory>
    requires branch { IsInFrame got branch }
    requires record_words { k + 4 ≤ 2 ^ 20 }
    ensures { OnOk result (code.new.items ≡ code.old.items ++ branch_record (home_at homes.now) got branch k) }
{
    pass_word(code, home_of(homes, branch.chan), k)?;
    store_number(code, direction(branch.send), k + 1)?;
    store_address(code, words_place(got, branch.send), k + 2)?;
    store_number(code, branch.words, k + 3)
}

/// The records of branches, from word `k` of the frame on.
fn branch_records(
    code: &mut Vec<Instr>,
    homes: &Homes,
    got: u32,
    branches: &[TalkBranch],
    k: u32,
) -> Result<(), NoMemory>
    requires branches { All (IsInFrame got) branches.now }
    requires record_words { k + 4 * length branches.now ≤ 2 ^ 20 }
    ensures { OnOk result (code.new.items ≡ code.old.items ++ branch_records (home_at homes.now) got branches.now k) }
{
    let mut at = k;
    for branch in branches {
        branch_record(code, homes, got, *branch, at)?;
        at += 4;
    }
    Ok(())
}

/// A send, a receive or an alt, with its records from word `records` of the frame on: the branch that went comes into slot
/// `to`, and what it received into the words from `got` on.
pub fn talk(
    code: &mut Vec<Instr>,
    homes: &Homes,
    branches: &[TalkBranch],
    records: u32,
    to: u32,
    got: u32,
) -> Result<(), NoMemory>
    requires few { length branches.now ≤ 64 }
    requires branches { All (IsInFrame got) branches.now }
    requires record_words { records + 4 * length branches.now ≤ 2 ^ 19 }
    requires to { to < 2 ^ 20 }
    ensures { OnOk result (code.new.items ≡ code.old.items ++ talk_code (home_at homes.now) branches.now records to got) }
{
    branch_records(code, homes, got, branches, records)?;
    call_on_records(code, records, branches.len() as u32, 10)?;
    leave(code, home_of(homes, to), 10)
}
