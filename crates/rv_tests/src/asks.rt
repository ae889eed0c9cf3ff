//! What small images ask first.

ghost use Rattle.std.specs.Prelude.{◌≡◌, IfOk};
ghost use Rattle.rv_exec.specs.Shown.{WaitsFor, bytes_of};

use crate::numbers::{put, words_of};
use al_base::NoMemory;
use rv_exec::{Asked, Hart, Held, Privates, stretch};
use rv_image::{ImageStop, read};
use rv_isa::image::Image;
use std::alloc::Global;
use std::process::Abort;
use std::test::Fail;

/// What was made, where something else is let go, whose type is not looked into here.
pub fn kept<T, U: Drop>(it: T, _other: U) -> T
    ensures { result ≡ it }
{
    it
}

/// The bytes of the image of this code. Function 0 has no parameter and function 1 has two words; both begin at the first
/// word. The first word is of line 2 and all others are of line 3.
fn bytes_of_code(rt: &impl Abort, alloc: Global, code: &[u32]) -> Result<Vec<u8>, NoMemory> {
    let words = (code.len() % 65_536) as u32;
    let rows = if words < 2 { 1 } else { 2 };
    let mut bytes = Vec::new(alloc);
    put(&mut bytes, &words_of(rt, alloc, "46454c41 2")?)?;
    put(&mut bytes, &[words])?;
    put(&mut bytes, &words_of(rt, alloc, "2 0 0 8 0")?)?;
    put(&mut bytes, &[rows])?;
    put(&mut bytes, &words_of(rt, alloc, "0 10 0 0 10 2")?)?;
    put(&mut bytes, code)?;
    put(&mut bytes, &[0, 2])?;
    if rows == 2 {
        put(&mut bytes, &[1, 3])?;
    }
    Ok(bytes)
}

fn image_of(rt: &impl Abort, alloc: Global, code: &[u32]) -> Result<Image, NoMemory> {
    let bytes = bytes_of_code(rt, alloc, code)?;
    match read(alloc, &bytes) {
        Ok(image) => Ok(image),
        Err(ImageStop::Fault(fault)) => panic!(rt; "no image: {fault:?}"),
        Err(ImageStop::NoMemory) => Err(NoMemory),
    }
}

/// The same image, made ready to run by micro-operations.
fn ready_image(rt: &impl Abort, alloc: Global, code: &[u32]) -> Result<Image, NoMemory> {
    let mut image = image_of(rt, alloc, code)?;
    image.make_ready(alloc)?;
    Ok(image)
}

/// What the first stretch of a function of these words asks.
fn ask_of(rt: &impl Abort, alloc: Global, image: &Image, words: &[u32]) -> Result<Asked, NoMemory>
    ensures waits { IfOk result (λ asked. WaitsFor asked.held.hart asked.act) }
    ensures bytes { IfOk result (λ asked. bytes_of asked.held.privates ≡ image.now.privates) }
{
    let function = if words.is_empty() { 0 } else { 1 };
    let privates = Privates::new(alloc, image)?;
    let known = match image.contents().functions.get(function as usize) {
        Some(row) => row.words as usize == words.len(),
        None => false,
    };
    assert!(rt; known);
    let hart = Hart::start(alloc, image, function, words)?;
    let held = Held {
        proc: 0,
        hart,
        privates,
    };
    match stretch(alloc, image, held) {
        Ok(asked) => Ok(asked),
        Err((_, no_memory)) => Err(no_memory),
    }
}

/// An image, and what a function of it of these words asks first.
fn with_ask(
    rt: &impl Abort,
    alloc: Global,
    image: Image,
    words: &[u32],
) -> Result<(Image, Asked), NoMemory>
    ensures waits { IfOk result (λ pair. WaitsFor pair.1.held.hart pair.1.act) }
    ensures bytes { IfOk result (λ pair. bytes_of pair.1.held.privates ≡ pair.0.privates) }
{
    match ask_of(rt, alloc, &image, words) {
        Ok(asked) => Ok((image, asked)),
        Err(no_memory) => Err(no_memory),
    }
}

/// The image of this code, and what it asks first.
pub fn first_of(
    rt: &impl Abort,
    alloc: Global,
    code: &[u32],
    words: &[u32],
) -> Result<(Image, Asked), NoMemory>
    ensures waits { IfOk result (λ pair. WaitsFor pair.1.held.hart pair.1.act) }
    ensures bytes { IfOk result (λ pair. bytes_of pair.1.held.privates ≡ pair.0.privates) }
{
    with_ask(rt, alloc, ready_image(rt, alloc, code)?, words)
}

/// What an action is shown as.
pub fn shown(alloc: Global, asked: &Asked) -> Result<String, Fail> {
    Ok(format!(in alloc; "{:?}", asked.act)?)
}

/// What code asks first, as it is shown, and how many words it fetches for it.
pub fn ask_shown(
    rt: &impl Abort,
    alloc: Global,
    code: &[u32],
    words: &[u32],
) -> Result<(String, u64), Fail> {
    let (_, asked) = first_of(rt, alloc, code, words)?;
    Ok((shown(alloc, &asked)?, asked.work))
}

/// The same by the table of instructions, without micro-operations.
fn ask_by_table(
    rt: &impl Abort,
    alloc: Global,
    code: &[u32],
    words: &[u32],
) -> Result<(String, u64), Fail> {
    let (_, asked) = with_ask(rt, alloc, image_of(rt, alloc, code)?, words)?;
    Ok((shown(alloc, &asked)?, asked.work))
}

/// Compares what code asks first, or only how that begins, and how many words it fetches for it, in both ways to run it.
pub fn compare(
    rt: &impl Abort,
    alloc: Global,
    code: &[u32],
    words: &[u32],
    want: &str,
    work: u64,
) -> Result<(), Fail> {
    let (shown, fetched) = ask_shown(rt, alloc, code, words)?;
    assert!(rt; shown.starts_with(want), "{shown}, not {want}");
    assert_eq!(rt; fetched, work, "{want}");
    let (shown, fetched) = ask_by_table(rt, alloc, code, words)?;
    assert!(rt;
        shown.starts_with(want),
        "{shown}, not {want}, by the table"
    );
    assert_eq!(rt; fetched, work, "{want}, by the table");
    Ok(())
}
