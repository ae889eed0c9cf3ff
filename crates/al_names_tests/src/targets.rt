//! Where statements of a body go.
use crate::text::tree_of;
use al_base::Place;
use al_flow::find_targets;
use al_tree::Item;
use std::alloc::Global;
use std::process::Abort;
use std::test::Fail;

/// The line and the column of a statement, and its number.
type Row = (u32, u32, Option<u64>);

const JUMPS: &[u8] = b"void f(){\n\
    a:\n\
    goto a;par{{b:\n\
    goto b;}}}\n";

static OF_JUMPS: [Row; 5] = [
    (2, 1, Some(0)),
    (3, 1, Some(0)),
    (3, 13, Some(0)),
    (4, 1, Some(0)),
    (4, 2, None),
];

const RAISES: &[u8] = b"void f(){\n\
    rescue{;}\n\
    switch(1){case 1:\n\
    rescue{\n\
    raise;}}while(1)\n\
    break;\n\
    raise;}\n";

static OF_RAISES: [Row; 5] = [
    (2, 1, Some(0)),
    (4, 1, Some(1)),
    (5, 1, Some(0)),
    (6, 1, Some(1)),
    (7, 1, Some(1)),
];

/// Compares the numbers of statements of the function of a text.
fn has_numbers(rt: &impl Abort, alloc: Global, text: &[u8], rows: &[Row]) -> Result<(), Fail> {
    if let Some(tree) = tree_of(rt, alloc, text)? {
        match tree.items.as_slice() {
            [Item::Function { body, .. }] => match find_targets(alloc, body) {
                Err(_) => assert!(rt; false),
                Ok(targets) => {
                    for (line, col, number) in rows {
                        let found = targets.number(Place {
                            line: *line,
                            col: *col,
                        });
                        assert!(rt; found == *number, "{line} {col}: {found:?}");
                    }
                }
            },
            _ => assert!(rt; false),
        }
    }
    Ok(())
}

#[test]
fn statements_have_numbers(rt: HostRuntime) -> Result<(), Fail> {
    let alloc = rt.alloc();
    has_numbers(&rt, alloc, JUMPS, OF_JUMPS.as_slice())?;
    has_numbers(&rt, alloc, RAISES, OF_RAISES.as_slice())
}
