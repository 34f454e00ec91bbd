// An image is its header, and behind it bytes that are the same in every image.
use std::array;

const LONGEST: usize = 262160;

#[derive(Drop)]
pub struct Image([u8; LONGEST]);

// A header is put over the first 16 later.
fn byte_of_image(i: usize) -> u8 {
    match i.checked_sub(16) {
        Some(j) => ((j / 1024 * 37 + j % 1024 % 251) % 256) as u8,
        None => 0,
    }
}

impl Image {
    pub fn new() -> Self {
        Image(array::from_fn(byte_of_image))
    }

    // The image with this header and of this size, the header cut where the size is below 16; nothing past the longest.
    pub fn of(&mut self, header: [u8; 16], size: usize) -> Option<&[u8]> {
        self.0[..16].copy_from_slice(&header);
        self.0.get(..size)
    }
}
