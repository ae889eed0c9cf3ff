ghost use Rattle.std.specs.Prelude.{◌≡◌, ◌+◌, ◌-◌, ◌≤◌, ◌<◌, ◌^◌, length, take, drop, vec_capacity};
ghost use Rattle.al_event.specs.Store.{number_of, bytes_of, overwritten};
ghost use Rattle.al_store.specs.Memory.{IsWidth, cleared, written};

// The word that these bytes spell, the lowest first.
fn word_of(bytes: &[u8]) -> u32
    requires { length bytes.now ≤ 4 }
    ensures { result ≡ number_of bytes.now }
{
    let mut le = [0; 4];
    le[..bytes.len()].copy_from_slice(bytes);
    u32::from_le_bytes(le)
}

// The word that `size` bytes from an index on spell.
pub fn get_word(memory: &[u8], from: usize, size: usize) -> u32
    requires few { size ≤ 4 }
    requires within { from + size ≤ length memory.now }
    ensures { result ≡ number_of (take size (drop from memory.now)) }
{
    word_of(&memory[from..from + size])
}

// Writes the lowest bytes of a word, `size` of them, from an index on.
pub fn put_word(memory: &mut [u8], from: usize, size: usize, word: u32)
    requires few { size ≤ 4 }
    requires within { from + size ≤ length memory.old }
    ensures { memory.new ≡ overwritten memory.old from (bytes_of size word) }
{
    memory[from..from + size].copy_from_slice(&word.to_le_bytes()[..size]);
}

// Makes the bytes from one index to another zeros, and has the memory reach so far.
pub fn clear(memory: &mut Vec<u8>, from: usize, to: usize)
    requires order { from ≤ to }
    requires room { to ≤ vec_capacity memory.old }
    ensures cleared { memory.new.items ≡ cleared memory.old.items from (to - from) }
    ensures capacity { vec_capacity memory.old ≤ vec_capacity memory.new }
{
    let len = memory.len().max(to);
    match memory.resize(len, 0) {
        Ok(()) => memory[from..to].fill(0),
        Err(_) => unreachable!(),
    }
}

// Puts these bytes from an index on, and has the memory reach so far.
pub fn write(memory: &mut Vec<u8>, from: usize, bytes: &[u8])
    requires room { from + length bytes.now ≤ vec_capacity memory.old }
    requires few { from + length bytes.now < 2 ^ 64 }
    ensures written { memory.new.items ≡ written memory.old.items from bytes.now }
    ensures capacity { vec_capacity memory.old ≤ vec_capacity memory.new }
{
    let to = from + bytes.len();
    let len = memory.len().max(to);
    match memory.resize(len, 0) {
        Ok(()) => memory[from..to].copy_from_slice(bytes),
        Err(_) => unreachable!(),
    }
}
