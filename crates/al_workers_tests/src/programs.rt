//! Programs for the machine, as code words.

use al_base::NoMemory;
use al_items::Items;
use rv_isa::image::{Contents, Image, Row};
use std::alloc::Global;

/// Code words, the functions that begin at some of them with their numbers of parameter words, and the sizes of the globals. Function
/// 0 is main.
pub struct Program {
    words: &'static [u32],
    functions: &'static [(u32, u32)],
    globals: &'static [u32],
}

/// The image of a program. None where it is out of the bounds.
pub fn image_of(alloc: Global, program: &Program) -> Result<Option<Image>, NoMemory> {
    let mut code = Vec::new(alloc);
    for word in program.words {
        code.push(*word)?;
    }
    let mut functions = Vec::new(alloc);
    for (entry, words) in program.functions {
        functions.push(Row {
            entry: *entry,
            slots: 64,
            words: *words,
        })?;
    }
    let mut globals = Vec::new(alloc);
    for bytes in program.globals {
        globals.push(*bytes)?;
    }
    let contents = Contents {
        code: Items::from_vec(code),
        functions: Items::from_vec(functions),
        globals: Items::from_vec(globals),
        items: Items::new(alloc),
        privates: 0,
        main: 0,
        lines: Items::new(alloc),
    };
    Ok(Image::check(contents).ok())
}

/// Four procs of a par each add one to a global 16 times, by a load and a store; main prints what it has at the end.
pub const RACE: Program = Program {
    words: &[
        0x00100293, 0x04512023, 0x04012223, 0x04012423, 0x00100293, 0x04512623, 0x04012823,
        0x04012a23, 0x00100293, 0x04512c23, 0x04012e23, 0x06012023, 0x00100293, 0x06512223,
        0x06012423, 0x06012623, 0x04010513, 0x00400593, 0x00d00893, 0x00000073, 0x10000937,
        0x00092983, 0x00098513, 0x00000593, 0x00100613, 0x01100893, 0x00000073, 0x00a00513,
        0x01000893, 0x00000073, 0x00e00893, 0x00000073, 0x00100893, 0x00000073, 0x10000937,
        0x01000a13, 0x00092983, 0x00198993, 0x01392023, 0xfffa0a13, 0xfe0a18e3, 0x00100893,
        0x00000073,
    ],
    functions: &[(0, 0), (34, 0)],
    globals: &[4],
};

/// Four procs of a par each store to a global, without end.
pub const STORES: Program = Program {
    words: &[
        0x00100293, 0x04512023, 0x04012223, 0x04012423, 0x00100293, 0x04512623, 0x04012823,
        0x04012a23, 0x00100293, 0x04512c23, 0x04012e23, 0x06012023, 0x00100293, 0x06512223,
        0x06012423, 0x06012623, 0x04010513, 0x00400593, 0x00d00893, 0x00000073, 0x00100893,
        0x00000073, 0x10000937, 0x00092023, 0xffdff06f,
    ],
    functions: &[(0, 0), (22, 0)],
    globals: &[4],
};

/// Four procs of a par each run a million instructions and then store to a global, again and again.
pub const PRIVATE: Program = Program {
    words: &[
        0x00100293, 0x04512023, 0x04012223, 0x04012423, 0x00100293, 0x04512623, 0x04012823,
        0x04012a23, 0x00100293, 0x04512c23, 0x04012e23, 0x06012023, 0x00100293, 0x06512223,
        0x06012423, 0x06012623, 0x04010513, 0x00400593, 0x00d00893, 0x00000073, 0x00100893,
        0x00000073, 0x10000937, 0x0007aa37, 0xfffa0a13, 0xfe0a1ee3, 0x00092023, 0xff1ff06f,
    ],
    functions: &[(0, 0), (22, 0)],
    globals: &[4],
};

/// Two procs send each other a word in turn, on a channel each way, without end.
pub const PING_PONG: Program = Program {
    words: &[
        0x00000513, 0x00100593, 0x00600893, 0x00000073, 0x00050913, 0x00000513, 0x00100593,
        0x00600893, 0x00000073, 0x00050993, 0x01212023, 0x01312223, 0x00100513, 0x00010593,
        0x00200613, 0x00b00893, 0x00000073, 0x00700313, 0x05212023, 0x00100293, 0x04512223,
        0x10612023, 0x10010293, 0x04512423, 0x00100293, 0x04512623, 0x04010513, 0x00100593,
        0x00a00893, 0x00000073, 0x05312023, 0x00000293, 0x04512223, 0x10010293, 0x04512423,
        0x00100293, 0x04512623, 0x04010513, 0x00100593, 0x00a00893, 0x00000073, 0x10012a03,
        0xf9dff06f, 0x00012903, 0x00412983, 0x05212023, 0x00000293, 0x04512223, 0x10010293,
        0x04512423, 0x00100293, 0x04512623, 0x04010513, 0x00100593, 0x00a00893, 0x00000073,
        0x10012a03, 0x00800313, 0x05312023, 0x00100293, 0x04512223, 0x10612023, 0x10010293,
        0x04512423, 0x00100293, 0x04512623, 0x04010513, 0x00100593, 0x00a00893, 0x00000073,
        0xf9dff06f,
    ],
    functions: &[(0, 0), (43, 2)],
    globals: &[],
};
