use crate::{Kind, Op, Over, Trap, apply, convert, over_line};

const MINUS_ONE: u64 = u64::MAX;

#[test]
fn operations_wrap_in_their_kind(rt: HostRuntime) {
    let rows = [
        (Op::Add, Kind::Int, 2_147_483_647, 1, Some(2_147_483_648)),
        (Op::Sub, Kind::Byte, 0, 1, Some(255)),
        (Op::Mul, Kind::Ulint, MINUS_ONE, MINUS_ONE, Some(1)),
        (Op::Mul, Kind::Lint, MINUS_ONE, 3, Some(MINUS_ONE - 2)),
        (Op::Div, Kind::Lint, 1 << 63, MINUS_ONE, Some(1 << 63)),
        (Op::Rem, Kind::Lint, 1 << 63, MINUS_ONE, Some(0)),
        (Op::Div, Kind::Usint, 7, 65_536, None),
        (Op::Shl, Kind::Ulint, 3, 65, Some(6)),
        (Op::Shr, Kind::Sint, 0x8000, 15, Some(0xffff)),
        (Op::Le, Kind::Uint, 5, 5, Some(1)),
        (Op::Ne, Kind::Byte, 256, 0, Some(0)),
    ];
    for (op, kind, a, b, wanted) in rows {
        assert_eq!(rt; apply(op, kind, a, b), wanted);
    }
}

#[test]
fn kinds_convert_by_value(rt: HostRuntime) {
    assert_eq!(rt; convert(Kind::Sint, Kind::Lint, 0xfffe), MINUS_ONE - 1);
    assert_eq!(rt; convert(Kind::Lint, Kind::Byte, 0x1234), 0x34);
}

#[test]
fn lines_of_ends(rt: HostRuntime) {
    let trapped = Over::Trapped {
        trap: Trap::Divide,
        proc: 0,
        at: 1,
    };
    let rows = [
        (Over::Done, b"".as_slice()),
        (Over::Stopped(3), b"".as_slice()),
        (
            trapped,
            b"alef: trap Divide in proc 0 at entry 1\n".as_slice(),
        ),
        (Over::Blocked, b"alef: blocked\n".as_slice()),
        (Over::Spent, b"alef: entries spent\n".as_slice()),
    ];
    for (over, wanted) in rows {
        let mut line = [0; 80];
        let len = over_line(&over, &mut line) as usize;
        assert!(rt; len <= 80);
        assert_eq!(rt; &line[..len], wanted);
    }
}
