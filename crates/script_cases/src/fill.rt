use std::alloc::{AllocError, Global};

/// Adds what stands after an opening brace: a word in the place of a closing one that is next.
fn push_piece(text: &mut Vec<u8>, piece: &[u8], word: &[u8]) -> Result<(), AllocError> {
    match piece {
        [b'}', rest @ ..] => {
            text.extend_from_slice(word)?;
            text.extend_from_slice(rest)?;
        }
        _ => {
            text.push(b'{')?;
            text.extend_from_slice(piece)?;
        }
    }
    Ok(())
}

/// A text with a word in each of its holes `{}`.
pub fn filled(alloc: Global, text: &[u8], word: &[u8]) -> Result<Vec<u8>, AllocError> {
    let mut whole = Vec::new(alloc);
    let mut is_first = true;
    for piece in text.split(|byte| *byte == b'{') {
        if is_first {
            whole.extend_from_slice(piece)?;
            is_first = false;
        } else {
            push_piece(&mut whole, piece, word)?;
        }
    }
    Ok(whole)
}
