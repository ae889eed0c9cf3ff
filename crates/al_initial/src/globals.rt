//! The globals of a text.
ghost use Rattle.std.specs.Prelude.{◌≡◌, slice_get, unwrap_or, [], IfOk};
ghost use Rattle.std.specs.Option.{option_copied};
ghost use Rattle.al_initial.specs.Whole as spec;

use al_base::NoMemory;
use al_environment::{Environment, Variable};
use al_items::Items;
use al_tree::{Name, Tree};
use al_typed::{Global as TypedGlobal, StartValue, Ty};
use std::alloc::Global;

/// The globals of a text with what they start with.
#[derive(Drop)]
pub struct Initial {
    /// By the numbers of `Declaration::Global`, which is the order of the program.
    pub globals: Items<TypedGlobal>,
    /// The string constants in initializers that have blocks, in text order, without the final 0: the first blocks of the
    /// program.
    pub texts: Items<Items<u8>>,
    /// The types of casts and sizeof in initializers.
    pub types: Items<Ty>,
}

fn bytes_at(names: &[Items<u8>], number: u32) -> &[u8]
    ensures { result.now ≡ unwrap_or (slice_get names.now number) [] }
{
    match names.get(number as usize) {
        None => &[],
        Some(name) => name.as_slice(),
    }
}

fn name_of<'a>(names: &'a [Items<u8>], name: Option<&Name>) -> &'a [u8]
    ensures { result.now ≡ spec.name_of names.now (option_copied name.entry) }
{
    match name {
        None => &[],
        Some(name) => bytes_at(names, name.name),
    }
}

fn start_at(starts: &[Items<StartValue>], k: usize) -> &[StartValue]
    ensures { result.now ≡ unwrap_or (slice_get starts.now k) [] }
{
    match starts.get(k) {
        None => &[],
        Some(start) => start.as_slice(),
    }
}

/// The global of that number.
#[tactic(auto, unfolding(crate::specs::Whole::global))]
fn global(
    alloc: Global,
    env: &Environment,
    tree: &Tree,
    starts: &[Items<StartValue>],
    k: usize,
    v: &Variable,
) -> Result<TypedGlobal, NoMemory>
    ensures { IfOk result (λ g. g ≡ spec.global env.now tree.now starts.now k v.now) }
{
    let name = name_of(tree.names.as_slice(), env.scopes.globals.get(k));
    Ok(TypedGlobal {
        name: Items::from_slice(alloc, name)?,
        ty: v.ty.copy(alloc)?,
        is_private: v.is_private,
        start: Items::from_slice(alloc, start_at(starts, k))?,
    })
}

/// The globals of a text that start with that.
#[tactic(auto, using(crate::proofs::GlobalsAre::globals_are))]
pub(crate) fn globals(
    alloc: Global,
    env: &Environment,
    tree: &Tree,
    starts: &[Items<StartValue>],
) -> Result<Items<TypedGlobal>, NoMemory>
    ensures { IfOk result (λ gs. gs ≡ spec.globals_from env.now tree.now starts.now 0 env.now.globals) }
{
    let mut globals = Items::with_capacity(alloc, env.globals.len())?;
    for (k, v) in env.globals.as_slice().iter().enumerate() {
        let g = global(alloc, env, tree, starts, k, v)?;
        globals.push(g)?;
    }
    Ok(globals)
}
