//! Images of programs of operations, and what comes of them.

ghost use Rattle.al_ir.specs.Bounds.{IsBounded};

use crate::programs::{differs, divides, sums};
use al_base::NoMemory;
use al_core::{Limits, World};
use al_ir::Ir;
use al_rounds::{OpenGate, go_alone};
use rv_gen::generate;
use rv_isa::image::Image;
use std::alloc::Global;
use std::process::Abort;
use std::sync::Arc;
use std::test::Fail;

/// What was made, where something else is let go, whose type is not looked into here.
fn kept<T, U: Drop>(it: T, _other: U) -> T {
    it
}

/// The world that one worker brings an image to, over a region of 1 MiB.
fn ended(alloc: Global, image: Image) -> Result<World, NoMemory> {
    let limits = Limits {
        region: 1,
        entries: 100,
    };
    let mut world = World::start(alloc, Arc::new(alloc, image)?, limits)?;
    match go_alone(alloc, &OpenGate, &mut world, 0) {
        Ok(()) => Ok(world),
        Err(no_memory) => Err(kept(no_memory, world)),
    }
}

/// How a world is over, the line of its trap, and its output.
fn shown(rt: &impl Abort, alloc: Global, world: &World) -> Result<String, Fail> {
    let Ok(output) = std::str::from_utf8(world.output()) else {
        panic!(rt; "no text");
    };
    let (over, line) = (world.over(), world.line());
    Ok(format!(in alloc; "{over:?}, line {line}, {output:?}")?)
}

/// Runs the image of a program, and compares what comes of it.
fn comes_to(rt: &impl Abort, alloc: Global, ir: &Ir, want: &str) -> Result<(), Fail>
    requires { IsBounded ir.now }
{
    let world = ended(alloc, generate(alloc, ir)?)?;
    let shown = kept(shown(rt, alloc, &world), world)?;
    assert_eq!(rt; shown.as_str(), want);
    Ok(())
}

/// A loop computes a sum in slots.
fn sums_up(rt: &impl Abort, alloc: Global) -> Result<(), Fail> {
    let ir = sums(alloc)?;
    comes_to(rt, alloc, &ir, "Some(Done), line 0, \"10\\n\"")
}

/// A function is given two words, and gives one.
fn calls(rt: &impl Abort, alloc: Global) -> Result<(), Fail> {
    let ir = differs(alloc)?;
    comes_to(rt, alloc, &ir, "Some(Done), line 0, \"-5\"")
}

/// A division of 64 bits is a routine, and traps in the line that divides by 0.
fn divides_pairs(rt: &impl Abort, alloc: Global) -> Result<(), Fail> {
    let ir = divides(alloc)?;
    let want = "Some(Trapped { trap: Divide, proc: 0, at: 1 }), line 4, \"2\"";
    comes_to(rt, alloc, &ir, want)
}

#[test]
fn programs_of_operations_come_to_this(rt: HostRuntime) -> Result<(), Fail> {
    sums_up(&rt, rt.alloc())?;
    calls(&rt, rt.alloc())?;
    divides_pairs(&rt, rt.alloc())
}
