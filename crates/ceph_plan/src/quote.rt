//! A word in single quotes.
ghost use Rattle.std.specs.Prelude.{◌≡◌, ◌<◌, All, IfOk};
ghost use Rattle.ceph_plan.specs.Words.{IsWordFor, quoted_word};

use std::alloc::{AllocError, Global};

/// A word that `sh` reads as these bytes: they are in single quotes, and each single quote among them is `'\''`.
pub fn quoted(alloc: Global, bytes: &[u8]) -> Result<Vec<u8>, AllocError>
    requires { All (λ byte. 0 < byte) bytes.now }
    ensures word { IfOk result (λ word. word.items ≡ quoted_word bytes.now) }
    // sh reads the word as the bytes
    ensures read { IfOk result (λ word. IsWordFor bytes.now word.items) }
{
    let mut word = Vec::with_capacity(alloc, 2)?;
    word.push(b'\'')?;
    for byte in bytes {
        if *byte == b'\'' {
            word.extend_from_slice(b"'\\''")?;
        } else {
            word.push(*byte)?;
        }
    }
    word.push(b'\'')?;
    Ok(word)
}
