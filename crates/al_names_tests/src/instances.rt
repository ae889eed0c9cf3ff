//! Instances of adts, and their functions.
use crate::text::tree_of;
use al_declare::{Defined, functions};
use al_poly::concrete;
use std::alloc::Global;
use std::process::Abort;
use std::test::Fail;

/// The names of the adts of a text's instances are these. Names are numbered by where they first stand.
fn has_instances(
    rt: &impl Abort,
    alloc: Global,
    text: &[u8],
    expected: &[u32],
) -> Result<(), Fail> {
    if let Some(tree) = tree_of(rt, alloc, text)? {
        match concrete(alloc, &tree) {
            Err(_) => assert!(rt; false),
            Ok(instances) => {
                let mut adts = Vec::new(alloc);
                for instance in instances.list.as_slice() {
                    adts.push(instance.adt)?;
                }
                assert_eq!(rt; adts.as_slice(), expected);
            }
        }
    }
    Ok(())
}

#[test]
fn instances_are_listed_once(rt: HostRuntime) -> Result<(), Fail> {
    let alloc = rt.alloc();
    let text: &[u8] = b"adt H[T]{T m;}adt G[T]{H[T]m;}typedef int X;G[int]a;G[X]b;";
    has_instances(&rt, alloc, text, [3, 0].as_slice())?;
    // the outer one is named first, and then its body names H[H[int]]
    let text: &[u8] = b"adt H[T]{T m;}adt G[T]{H[T]m;}G[H[int]]a;";
    has_instances(&rt, alloc, text, [3, 0, 0].as_slice())?;
    let text: &[u8] = b"adt H[T]{T m;}H[chan(int)[1]]a;H[chan(int)[2]]b;";
    has_instances(&rt, alloc, text, [0, 0].as_slice())?;
    let text: &[u8] = b"adt G[T]{G*m;}G[int]a;";
    has_instances(&rt, alloc, text, [0].as_slice())
}

#[test]
fn functions_of_instances_are_numbered(rt: HostRuntime) -> Result<(), Fail> {
    let alloc = rt.alloc();
    let text: &[u8] = b"adt S[T]{int f();}int S[T].f(){}S[int]s;";
    if let Some(tree) = tree_of(&rt, alloc, text)? {
        match concrete(alloc, &tree) {
            Err(_) => assert!(rt; false),
            Ok(instances) => {
                let found = functions(alloc, &tree, &instances)?;
                let expected = Defined {
                    item: 1,
                    instance: Some(0),
                };
                assert_eq!(rt; found.as_slice(), [expected].as_slice());
            }
        }
    }
    Ok(())
}
