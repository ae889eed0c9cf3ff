use crate::{elements_between, integer_words, stepped_by};
use al_base::Kind;
use std::test::Fail;

#[test]
fn pointers_move(rt: HostRuntime) {
    assert_eq!(rt; elements_between(8, 0x1000, 0x1010), 0xffff_fffe);
    assert_eq!(rt; stepped_by(true, 4, 0x1000, 1), 0xffc);
}

#[test]
fn integers_are_words(rt: HostRuntime) -> Result<(), Fail> {
    let long = integer_words(rt.alloc(), Kind::Lint, 0x1_0000_0002)?;
    assert_eq!(rt; long.as_slice(), [2, 1].as_slice());
    Ok(())
}
