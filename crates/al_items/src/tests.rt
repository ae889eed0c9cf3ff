use crate::{Boxed, Items};
use std::test::Fail;

#[test]
fn lists_and_boxes_give_back_what_they_got(rt: HostRuntime) -> Result<(), Fail> {
    let alloc = rt.alloc();
    let mut items = Items::with_capacity(alloc, 2)?;
    items.push(1u8)?;
    items.extend_from_slice(&[2, 3])?;
    items.append(Items::from_slice(alloc, &[4, 5])?)?;
    items.set(0, 9);
    items.truncate(4);
    assert_eq!(rt; items.as_slice(), [9, 2, 3, 4].as_slice());
    assert_eq!(rt; items.last(), Some(&4));
    assert_eq!(rt; items.into_vec().len(), 4);
    assert_eq!(rt; *Boxed::new(alloc, 7u32)?.get(), 7);
    Ok(())
}
