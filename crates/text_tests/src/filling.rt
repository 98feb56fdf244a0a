// Long texts.

use std::alloc::{AllocError, Global};

// The front, `count` times the byte, and the back.
pub(crate) fn filled(
    alloc: Global,
    front: &[u8],
    byte: u8,
    count: usize,
    back: &[u8],
) -> Result<Vec<u8>, AllocError> {
    let mut text = front.to_vec(alloc)?;
    for _ in 0..count {
        text.push(byte)?;
    }
    text.extend_from_slice(back)?;
    Ok(text)
}
