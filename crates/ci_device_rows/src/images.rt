//! Images of volumes, in bytes.

use ci_base::Text8;
use std::alloc::{AllocError, Global};

// An image: its gates, the fields of its slots (generation, pages, root, length), a page of a chain
// with the page that follows it, and how many bytes it has.
#[derive(Clone, Copy)]
pub(crate) struct Image {
    pub gates: [u8; 2],
    pub slots: [[u64; 4]; 2],
    pub link: Option<(u64, u64)>,
    pub size: usize,
}

fn put(bytes: &mut [u8], at: usize, value: &[u8]) {
    for (i, byte) in value.iter().enumerate() {
        if at < bytes.len() && i < bytes.len() - at {
            bytes[at + i] = *byte;
        }
    }
}

fn put_slot(bytes: &mut [u8], at: usize, slot: &[u64; 4]) {
    put(bytes, at, &slot[0].to_be_bytes());
    put(bytes, at.saturating_add(8), &small(slot[1]).to_be_bytes());
    put(bytes, at.saturating_add(12), &small(slot[2]).to_be_bytes());
    put(bytes, at.saturating_add(16), &small(slot[3]).to_be_bytes());
}

fn small(number: u64) -> u32 {
    number.min(4_294_967_295) as u32
}

pub(crate) fn bytes_of(alloc: Global, image: &Image) -> Result<Text8, AllocError> {
    let mut bytes = Vec::from_elem(alloc, 0u8, image.size)?;
    put_image(&mut bytes, image);
    Ok(Text8::from(bytes))
}

fn put_image(bytes: &mut [u8], image: &Image) {
    put(bytes, 0, b"CICAT1");
    put(bytes, 6, &image.gates);
    put_slot(bytes, 4096, &image.slots[0]);
    put_slot(bytes, 8192, &image.slots[1]);
    put_link(bytes, image.link);
}

fn put_link(bytes: &mut [u8], link: Option<(u64, u64)>) {
    if let Some((page, next)) = link {
        put(
            bytes,
            page.saturating_mul(4096) as usize,
            &small(next).to_be_bytes(),
        );
    }
}
