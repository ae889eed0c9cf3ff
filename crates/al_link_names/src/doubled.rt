//! Functions that are defined in two files.
ghost use Rattle.std.specs.Prelude.{◌≡◌, ◌++◌, ◌≤◌, map, length, OnOk, IfOk};
ghost use Rattle.al_link_text.specs.Linked.{Alike};
ghost use Rattle.al_link_names.specs.Twice as spec;

use crate::at::At;
use crate::defined::{Defined, all_defined};
use al_base::{NoMemory, Place};
use al_link_text::{File, Texts};
use std::alloc::Global;

/// Where the first of these stands that is among the names.
fn first_among(earlier: &Texts, list: &[Defined]) -> Option<Place>
    ensures { result ≡ spec.first_among earlier.now list.now }
{
    for d in list {
        if earlier.has(d.name.as_slice()) {
            return Some(d.at);
        }
    }
    None
}

fn add_all(alloc: Global, names: &mut Texts, list: &[Defined]) -> Result<(), NoMemory>
    ensures { OnOk result (Alike names.new (names.old ++ map spec.name_of list.now)) }
{
    for d in list {
        names.add(Vec::from_slice(alloc, d.name.as_slice())?)?;
    }
    Ok(())
}

/// Where the first function is defined that an earlier file defines too, an adt's function among them, and a function that
/// belongs to its file not.
pub fn twice(alloc: Global, files: &[File]) -> Result<Option<At>, NoMemory>
    requires { length files.now ≤ 64 }
    ensures { IfOk result (λ found. found ≡ spec.first_twice files.now) }
{
    let mut earlier = Texts::new(alloc);
    let mut number = 1;
    for file in files {
        let list = all_defined(alloc, file)?;
        if let Some(place) = first_among(&earlier, list.as_slice()) {
            return Ok(Some(At {
                file: number,
                place,
            }));
        }
        add_all(alloc, &mut earlier, list.as_slice())?;
        number += 1;
    }
    Ok(None)
}
