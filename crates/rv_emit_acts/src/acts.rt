//! Actions: their arguments in registers 10 to 12, their answer from register 10.

ghost use Rattle.std.specs.Prelude.{◌≡◌, ◌+◌, ◌^◌, ◌<◌, ◌≤◌, ◌++◌, OnOk};
ghost use Rattle.rv_form.specs.Flow.{pass_word};
ghost use Rattle.rv_form.specs.Acts.{block_number, alloc_code, free_code, new_chan_code, free_chan_code, chan_question, store_number, store_address, call_on_records, start_code, start_record};
ghost use Rattle.rv_emit.specs.Near.{IsNear};

use crate::units::frame_address;
use al_base::NoMemory;
use al_event::Block;
use rv_code::Home;
use rv_emit::homes::{bring, frame_store, get, get_register, leave};
use rv_emit::pieces::{call, number};
use rv_isa::instr::Instr;

/// A block's kind as a runtime call has it.
pub fn block_number(kind: Block) -> u32
    ensures { result ≡ block_number kind }
{
    match kind {
        Block::Heap => 1,
        Block::Frame => 2,
        Block::Global => 0,
    }
}

/// A new block.
pub fn alloc_block(code: &mut Vec<Instr>, to: Home, bytes: u32, kind: Block) -> Result<(), NoMemory>
    requires { IsNear to }
    ensures { OnOk result (code.new.items ≡ code.old.items ++ alloc_code to bytes kind) }
{
    number(code, 10, bytes)?;
    number(code, 11, block_number(kind))?;
    call(code, 4)?;
    leave(code, to, 10)
}

/// A block is given back.
pub fn free_block(code: &mut Vec<Instr>, at: Home, kind: Block) -> Result<(), NoMemory>
    requires { IsNear at }
    ensures { OnOk result (code.new.items ≡ code.old.items ++ free_code at kind) }
{
    bring(code, at, 10)?;
    number(code, 11, block_number(kind))?;
    call(code, 5)
}

/// A new channel.
pub fn new_chan(code: &mut Vec<Instr>, to: Home, capacity: u32, words: u32) -> Result<(), NoMemory>
    requires { IsNear to }
    ensures { OnOk result (code.new.items ≡ code.old.items ++ new_chan_code to capacity words) }
{
    number(code, 10, capacity)?;
    number(code, 11, words)?;
    call(code, 6)?;
    leave(code, to, 10)
}

/// A channel is given up.
pub fn free_chan(code: &mut Vec<Instr>, chan: Home) -> Result<(), NoMemory>
    requires { IsNear chan }
    ensures { OnOk result (code.new.items ≡ code.old.items ++ free_chan_code chan) }
{
    bring(code, chan, 10)?;
    call(code, 7)
}

/// A question of a channel, by the number of its call.
pub fn ask_chan(code: &mut Vec<Instr>, question: u8, to: Home, chan: Home) -> Result<(), NoMemory>
    requires to { IsNear to }
    requires chan { IsNear chan }
    ensures { OnOk result (code.new.items ≡ code.old.items ++ chan_question question to chan) }
{
    bring(code, chan, 10)?;
    call(code, question)?;
    leave(code, to, 10)
}

/// A slot's word into word `k` of the frame.
pub fn pass_word(code: &mut Vec<Instr>, from: Home, k: u32) -> Result<(), NoMemory>
    requires from { IsNear from }
    requires word { k < 2 ^ 20 }
    ensures { OnOk result (code.new.items ≡ code.old.items ++ pass_word from k) }
{
    get(code, from, 10)?;
    frame_store(code, get_register(from, 10), k)
}

/// A number into word `k` of the frame.
pub fn store_number(code: &mut Vec<Instr>, n: u32, k: u32) -> Result<(), NoMemory>
    requires { k < 2 ^ 20 }
    ensures { OnOk result (code.new.items ≡ code.old.items ++ store_number n k) }
{
    number(code, 10, n)?;
    frame_store(code, 10, k)
}

/// The address of a word of the frame into word `k` of it.
pub fn store_address(code: &mut Vec<Instr>, word: u32, k: u32) -> Result<(), NoMemory>
    requires word { word < 2 ^ 20 }
    requires into { k < 2 ^ 20 }
    ensures { OnOk result (code.new.items ≡ code.old.items ++ store_address word k) }
{
    frame_address(code, 10, word)?;
    frame_store(code, 10, k)
}

/// A runtime call on so many records.
pub fn call_on_records(code: &mut Vec<Instr>, k: u32, count: u32, n: u8) -> Result<(), NoMemory>
    requires { k < 2 ^ 20 }
    ensures { OnOk result (code.new.items ≡ code.old.items ++ call_on_records k count n) }
{
    frame_address(code, 10, k)?;
    number(code, 11, count)?;
    call(code, n)
}

/// A proc or a task, by the number of its call.
pub fn start(
    code: &mut Vec<Instr>,
    n: u8,
    function: u32,
    arguments: u32,
    words: u32,
) -> Result<(), NoMemory>
    requires { arguments < 2 ^ 20 }
    ensures { OnOk result (code.new.items ≡ code.old.items ++ start_code n function arguments words) }
{
    number(code, 10, function)?;
    frame_address(code, 11, arguments)?;
    number(code, 12, words)?;
    call(code, n)
}

/// The record of a start, from word `k` on.
pub fn start_record(
    code: &mut Vec<Instr>,
    arguments: u32,
    words: u32,
    function: u32,
    k: u32,
) -> Result<(), NoMemory>
    requires arguments { arguments < 2 ^ 20 }
    requires record_words { k + 3 ≤ 2 ^ 20 }
    ensures { OnOk result (code.new.items ≡ code.old.items ++ start_record arguments words function k) }
{
    store_number(code, function, k)?;
    store_address(code, arguments, k + 1)?;
    store_number(code, words, k + 2)
}
