//! How a task runs up to its next action.

use al_base::NoMemory;
use rv_exec::{Asked, Held, stretch};
use rv_isa::image::Image;
use std::alloc::Global;

/// Runs tasks up to their next actions. A round runs all its stretches by one gate, each outside of any lock.
pub trait Gate: Sync {
    ghost use Rattle.std.specs.Prelude.{◌≡◌, IfOk, IfErr};
    ghost use Rattle.rv_exec.specs.Machine.{ask};
    ghost use Rattle.rv_exec.specs.Shown.{hart_of, privates_of, bytes_of, asked_of, WaitsFor};

    /// Runs a task up to its next ask, as the machine does. Where there is no memory, a further call goes on to the same ask.
    /// The worker of this number runs it, which has made so many entries in this round.
    fn stretch(
        &self,
        alloc: Global,
        image: &Image,
        worker: u8,
        entries: u64,
        held: Held,
    ) -> Result<Asked, (Held, NoMemory)>
        requires { bytes_of held.privates ≡ image.now.privates }
        ensures asked { IfOk result (λ a. asked_of image.now a ≡ ask image.now (hart_of held.hart) (privates_of held.privates)) }
        ensures takes { IfOk result (λ a. WaitsFor a.held.hart a.act) }
        ensures proc { IfOk result (λ a. a.held.proc ≡ held.proc) }
        ensures bytes { IfOk result (λ a. bytes_of a.held.privates ≡ bytes_of held.privates) }
        ensures later { IfErr result (λ e. ask image.now (hart_of e.0.hart) (privates_of e.0.privates) ≡ ask image.now (hart_of held.hart) (privates_of held.privates)) }
        ensures later_proc { IfErr result (λ e. e.0.proc ≡ held.proc) }
        ensures later_bytes { IfErr result (λ e. bytes_of e.0.privates ≡ bytes_of held.privates) };
}

/// The machine, and nothing beside it.
#[derive(Debug, Drop)]
pub struct OpenGate;

impl Gate for OpenGate {
    fn stretch(
        &self,
        alloc: Global,
        image: &Image,
        _worker: u8,
        _entries: u64,
        held: Held,
    ) -> Result<Asked, (Held, NoMemory)> {
        stretch(alloc, image, held)
    }
}
