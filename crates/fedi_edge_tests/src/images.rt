//! What a crash may leave of a disk, by its record of calls.

use fedi_outside::Call;
use std::alloc::{AllocError, Global};

/// A list of images.
pub type Images = Vec<Vec<u8>>;

// Replaces the bytes from offset `at` on with others, some of which may be past the end.
fn splice(bytes: &mut Vec<u8>, at: usize, from: &[u8]) -> Result<(), AllocError> {
    for (i, byte) in from.iter().enumerate() {
        match bytes.get_mut(at.saturating_add(i)) {
            Some(here) => *here = *byte,
            None => bytes.push(*byte)?,
        }
    }
    Ok(())
}

// The bytes with others from offset `at` on.
fn spliced(alloc: Global, bytes: &[u8], at: usize, from: &[u8]) -> Result<Vec<u8>, AllocError> {
    let mut after = bytes.to_vec(alloc)?;
    splice(&mut after, at, from)?;
    Ok(after)
}

fn push_torn(
    alloc: Global,
    after: &mut Images,
    images: &[Vec<u8>],
    at: usize,
    writes: [&[u8]; 4],
) -> Result<(), AllocError> {
    for image in images {
        for bytes in &writes {
            after.push(spliced(alloc, image, at, bytes)?)?;
        }
    }
    Ok(())
}

// What each image may be after such a write that was not synced: as before, or with all of it, only
// its first half, or its second half after other bytes.
fn torn(alloc: Global, images: &[Vec<u8>], at: usize, bytes: &[u8]) -> Result<Images, AllocError> {
    let half = bytes.len() / 2;
    let mut behind_others = bytes.to_vec(alloc)?;
    for byte in behind_others.iter_mut().take(half) {
        *byte = 7;
    }
    let writes = [b"", bytes, &bytes[..half], behind_others.as_slice()];
    let mut after = Vec::new(alloc);
    push_torn(alloc, &mut after, images, at, writes)?;
    Ok(after)
}

// What the images and the bytes that reads give are after this call.
fn set_after(
    alloc: Global,
    images: &mut Images,
    reads: &mut Vec<u8>,
    call: &Call,
) -> Result<(), AllocError> {
    match call {
        Call::Write { at, bytes, done } => {
            let at = *at as usize;
            *images = torn(alloc, images, at, bytes)?;
            if *done {
                splice(reads, at, bytes)?;
            }
        }
        Call::Sync { done: true } => {
            images.clear();
            images.push(reads.to_vec(alloc)?)?;
        }
        _ => {}
    }
    Ok(())
}

fn push_images(
    alloc: Global,
    images: &mut Images,
    base: &[u8],
    calls: &[Call],
) -> Result<(), AllocError> {
    let mut reads = base.to_vec(alloc)?;
    images.push(base.to_vec(alloc)?)?;
    for call in calls {
        set_after(alloc, images, &mut reads, call)?;
    }
    Ok(images.push(reads)?)
}

/// Some images that a crash after these calls may leave of a disk that had these bytes, and as the
/// last one the image that reads give.
pub fn images_of(alloc: Global, base: &[u8], calls: &[Call]) -> Result<Images, AllocError> {
    let mut images = Vec::new(alloc);
    push_images(alloc, &mut images, base, calls)?;
    Ok(images)
}
