use crate::{TypeFault, TypeStop, ask, broken, judged};
use al_base::Place;
use al_items::Items;
use std::test::Fail;

const FIRST: Place = Place { line: 3, col: 5 };

const SECOND: Place = Place { line: 4, col: 1 };

#[test]
fn a_rule_that_does_not_hold_is_a_fault(rt: HostRuntime) -> Result<(), Fail> {
    let alloc = rt.alloc();
    let table = [
        (true, true, Ok(7u8)),
        (false, true, Err(broken(1, FIRST))),
        (true, false, Err(broken(22, SECOND))),
        (false, false, Err(broken(1, FIRST))),
    ];
    for (first, second, expected) in table {
        let mut faults = Items::new(alloc);
        ask(&mut faults, 1, FIRST, first)?;
        ask(&mut faults, 22, SECOND, second)?;
        assert_eq!(rt;
            judged(faults.as_slice(), 7u8),
            expected,
            "{first} {second}"
        );
    }
    let mut faults = Items::new(alloc);
    ask(&mut faults, 22, SECOND, false)?;
    let expected = TypeFault {
        rule: 22,
        place: SECOND,
    };
    assert_eq!(rt; faults.last(), Some(&expected));
    assert_eq!(rt; broken(22, SECOND), TypeStop::Fault(expected));
    Ok(())
}
