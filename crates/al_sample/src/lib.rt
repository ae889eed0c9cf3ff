//! The sample text: a large text of the language, made from a number, whose program prints the same sum at each run.
#![tactic(auto)]

ghost use Rattle.std.specs.Prelude.{◌≡◌, ◌+◌, ◌*◌, ◌/◌, ◌<◌, ◌≤◌, ◌^◌, ◌++◌, [], ◌∷◌, IfOk, OnOk, codes, decimal};
ghost use Rattle.al_sample.specs.Sample.{joined, functions_of, function_line, call, worker_line, main_line, sample_text};

use al_base::NoMemory;
use itoa::Buffer;
use std::alloc::Global;

const MAIN: &[u8] =
    b"void main(){chan(int) c;int s,i;alloc c;proc w0(c);proc w1(c);proc w2(c);proc w3(c);s=0;i=0;while(i<4){s=s+<-c;i=i+1;}print(\"%u\\n\",s);}\n";

/// How many functions `f` the text for `n` has: 20 to 1,016.
pub fn function_count(n: u32) -> u32
    ensures value { result ≡ functions_of n }
    ensures few { result ≤ 1016 }
{
    20 + 4 * (n % 250)
}

/// The sample text for `n`: `function_count(n)` functions, four workers that call every fourth of them and
/// send their sums over one channel, and a main that prints what it receives, summed.
pub fn sample(alloc: Global, n: u32) -> Result<Vec<u8>, NoMemory>
    ensures { IfOk result (λ text. text.items ≡ sample_text n) }
{
    let functions = function_count(n);
    let mut text = Vec::new(alloc);
    push_functions(&mut text, functions)?;
    push_workers(&mut text, functions / 4)?;
    text.extend_from_slice(MAIN)?;
    Ok(text)
}

fn push_functions(text: &mut Vec<u8>, functions: u32) -> Result<(), NoMemory>
    ensures { OnOk result (text.new.items ≡ text.old.items ++ joined function_line functions) }
{
    for j in 0..functions {
        push_function(text, j)?;
    }
    Ok(())
}

fn push_workers(text: &mut Vec<u8>, calls: u32) -> Result<(), NoMemory>
    requires { 4 * calls + 3 < 2 ^ 32 }
    ensures { OnOk result (text.new.items ≡ text.old.items ++ joined (worker_line calls) 4) }
{
    for p in 0..4 {
        push_worker(text, calls, p)?;
    }
    Ok(())
}

fn push_function(text: &mut Vec<u8>, j: u32) -> Result<(), NoMemory>
    ensures { OnOk result (text.new.items ≡ text.old.items ++ function_line j) }
{
    text.extend_from_slice(b"int f")?;
    push_number(text, j)?;
    text.extend_from_slice(b"(int x){int i;i=0;while(i<3){x=x*5+")?;
    push_number(text, j)?;
    text.extend_from_slice(b";i=i+1;}return x;}\n")?;
    Ok(())
}

fn push_worker(text: &mut Vec<u8>, calls: u32, p: u32) -> Result<(), NoMemory>
    requires { 4 * calls + p < 2 ^ 32 }
    ensures { OnOk result (text.new.items ≡ text.old.items ++ worker_line calls p) }
{
    text.extend_from_slice(b"void w")?;
    push_number(text, p)?;
    text.extend_from_slice(b"(chan(int) c){int s;s=0;")?;
    for k in 0..calls {
        push_call(text, p, 4 * k + p)?;
    }
    text.extend_from_slice(b"c<-=s;}\n")?;
    Ok(())
}

fn push_call(text: &mut Vec<u8>, p: u32, j: u32) -> Result<(), NoMemory>
    ensures { OnOk result (text.new.items ≡ text.old.items ++ call p j) }
{
    text.extend_from_slice(b"s=s+f")?;
    push_number(text, j)?;
    text.extend_from_slice(b"(")?;
    push_number(text, p)?;
    text.extend_from_slice(b");")?;
    Ok(())
}

fn push_number(text: &mut Vec<u8>, n: u32) -> Result<(), NoMemory>
    ensures { OnOk result (text.new.items ≡ text.old.items ++ decimal n) }
{
    let mut buffer = Buffer::new();
    text.extend_from_slice(buffer.format(n).as_bytes())?;
    Ok(())
}
