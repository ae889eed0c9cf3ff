//! An image goes to other threads, and several may read it.

use crate::image::Image;

fn goes<T: Send>(x: T) -> T {
    x
}

fn is_shared<T: Sync>(_x: &T) {}

/// An image may go to another thread.
pub fn image_goes(image: Image) -> Image {
    goes(image)
}

/// An image may be read by several threads.
pub fn image_is_shared(image: &Image) {
    is_shared(image)
}
