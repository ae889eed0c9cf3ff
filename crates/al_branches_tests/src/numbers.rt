//! The numbers of branches in a text whose first function is of an adt with two instances.
use al_base::Place;
use al_branches::branch_numbers;
use al_declare::Defined;
use al_lex::lex;
use al_parse_stmt::parse;
use std::test::Fail;

const TEXT: &[u8] = b"adt A[T]{T a;void f(*A);}\n\
    void A[T].f(A*a){par{;par{;;}}}\n\
    void g(){par{;;}}\n\
    void h(){}\n\
    void main(){if(1)par{;}else par{;}}\n";

/// `g`, `h`, `main`, and `f` of both instances.
static DEFINED: [Defined; 5] = [
    Defined {
        item: 2,
        instance: None,
    },
    Defined {
        item: 3,
        instance: None,
    },
    Defined {
        item: 4,
        instance: None,
    },
    Defined {
        item: 1,
        instance: Some(0),
    },
    Defined {
        item: 1,
        instance: Some(1),
    },
];

/// The function, the line and the column of a branch, and its number.
static TABLE: [(usize, u32, u32, Option<u32>); 17] = [
    (3, 2, 22, Some(5)),
    (4, 2, 22, Some(6)),
    (3, 2, 23, Some(7)),
    (4, 2, 23, Some(8)),
    (3, 2, 27, Some(9)),
    (4, 2, 27, Some(10)),
    (3, 2, 28, Some(11)),
    (4, 2, 28, Some(12)),
    (0, 3, 14, Some(13)),
    (0, 3, 15, Some(14)),
    (2, 5, 22, Some(15)),
    (2, 5, 33, Some(16)),
    (0, 3, 10, None),
    (0, 2, 22, None),
    (1, 3, 14, None),
    (2, 5, 18, None),
    (3, 3, 14, None),
];

#[test]
fn branches_are_numbered_in_text_order_and_by_instances(rt: HostRuntime) -> Result<(), Fail> {
    let alloc = rt.alloc();
    let text = TEXT;
    assert!(rt; text.len() <= 1 << 20);
    let toks = lex(alloc, text)?;
    match parse(alloc, &toks) {
        Err(_) => assert!(rt; false),
        Ok(tree) => {
            let list = branch_numbers(alloc, tree.items.as_slice(), DEFINED.as_slice())?;
            assert_eq!(rt; list.len(), 5);
            for (k, line, col, number) in TABLE {
                let found = list
                    .get(k)
                    .and_then(|numbers| numbers.number(Place { line, col }));
                assert!(rt; found == number, "{k} {line} {col}: {found:?}");
            }
        }
    }
    Ok(())
}
