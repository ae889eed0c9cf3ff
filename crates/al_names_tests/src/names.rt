//! What names stand for.
use crate::text::tree_of;
use al_base::Place;
use al_scope::{Declaration, resolve};
use std::test::Fail;

const TEXT: &[u8] = b"enum{C};\n\
    int x;\n\
    int main(){\n\
    x;\n\
    C;\n\
    main;\n\
    print;\n\
    int y;\n\
    int x;\n\
    x;\n\
    par{{int y;\n\
    x;\n\
    y;}}}\n";

/// The line and the column of a name, and what it stands for.
static TABLE: [(u32, u32, Option<Declaration>); 9] = [
    (4, 1, Some(Declaration::Global(0))),
    (5, 1, Some(Declaration::Constant(0))),
    (6, 1, Some(Declaration::Function(0))),
    (7, 1, Some(Declaration::Print)),
    (8, 5, Some(Declaration::Local(0))),
    (10, 1, Some(Declaration::Local(1))),
    (
        12,
        1,
        Some(Declaration::Outer {
            around: 0,
            number: 1,
        }),
    ),
    (13, 1, Some(Declaration::Local(0))),
    (13, 2, None),
];

#[test]
fn names_stand_for_the_closest_declaration(rt: HostRuntime) -> Result<(), Fail> {
    let alloc = rt.alloc();
    if let Some(tree) = tree_of(&rt, alloc, TEXT)? {
        match resolve(alloc, &tree) {
            Err(_) => assert!(rt; false),
            Ok(scopes) => {
                for (line, col, expected) in TABLE {
                    let found = scopes.declaration(Place { line, col });
                    assert!(rt; found == expected, "{line} {col}: {found:?}");
                }
            }
        }
    }
    Ok(())
}
