//! Images as bytes. Which bytes are no image is shown by the real program (`tests/program`).

use crate::numbers::{put, words_of};
use rv_image::{migrate, read, write};
use rv_isa::image::{Image, Row};
use std::alloc::Global;
use std::process::Abort;
use std::test::Fail;

/// A program that ends at once, in version 1: its words, in hexadecimal.
static ENDS_1: &str = "46454c41 1 2 1 0 0 0 0 0 10 0 100893 73";

/// The same in version 2, without line rows.
static ENDS_2: &str = "46454c41 2 2 1 0 0 0 0 0 0 10 0 100893 73";

/// An image with each kind of row: the header, two functions, two globals, three items, code and two line rows.
static ALL_ROWS: &str = "46454c41 2 2 2 2 3 8 1 2 \
    0 10 0 1 4000 2 8 4 0 0 4 7 0 4 1 ff 1 2 2 ffff \
    100893 73 0 1 1 100001";

fn bytes_of(rt: &impl Abort, alloc: Global, words: &str) -> Result<Vec<u8>, Fail> {
    let mut bytes = Vec::new(alloc);
    put(&mut bytes, &words_of(rt, alloc, words)?)?;
    Ok(bytes)
}

/// The image of these bytes.
fn image_of(rt: &impl Abort, alloc: Global, bytes: &[u8]) -> Image {
    match read(alloc, bytes) {
        Ok(image) => image,
        Err(stop) => panic!(rt; "{stop:?}"),
    }
}

/// The bytes of an image, written again.
fn written(rt: &impl Abort, alloc: Global, bytes: &[u8]) -> Result<Vec<u8>, Fail> {
    let image = image_of(rt, alloc, bytes);
    Ok(write(alloc, &image)?)
}

fn migrated(rt: &impl Abort, alloc: Global, bytes: &[u8]) -> Vec<u8> {
    match migrate(alloc, bytes) {
        Ok(bytes) => bytes,
        Err(stop) => panic!(rt; "{stop:?}"),
    }
}

/// An image in either version is read, and is written and brought up to date as this.
fn becomes(rt: &impl Abort, alloc: Global, old: &str, new: &str) -> Result<(), Fail> {
    let old = bytes_of(rt, alloc, old)?;
    let new = bytes_of(rt, alloc, new)?;
    assert!(rt; migrated(rt, alloc, &old) == new);
    assert!(rt; written(rt, alloc, &old)? == new);
    Ok(())
}

#[test]
fn either_version_becomes_version_2(rt: HostRuntime) -> Result<(), Fail> {
    let alloc = rt.alloc();
    becomes(&rt, alloc, ENDS_1, ENDS_2)?;
    becomes(&rt, alloc, ENDS_2, ENDS_2)?;
    becomes(&rt, alloc, ALL_ROWS, ALL_ROWS)
}

#[test]
fn an_image_is_read(rt: HostRuntime) -> Result<(), Fail> {
    let bytes = bytes_of(&rt, rt.alloc(), ENDS_1)?;
    let image = image_of(&rt, rt.alloc(), &bytes);
    let contents = image.contents();
    let row = Row {
        entry: 0,
        slots: 16,
        words: 0,
    };
    assert_eq!(rt;
        contents.code.as_slice(),
        [0x0010_0893, 0x0000_0073].as_slice()
    );
    assert_eq!(rt; contents.functions.as_slice(), [row].as_slice());
    assert!(rt;
        contents.globals.is_empty() && contents.items.is_empty() && contents.lines.is_empty()
    );
    assert_eq!(rt; contents.privates, 0);
    assert_eq!(rt; contents.main, 0);
    Ok(())
}
