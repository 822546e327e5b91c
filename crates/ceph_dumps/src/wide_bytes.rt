//! Bytes from 0x80 as characters of their own, so that any bytes are UTF-8, and back.
ghost use Rattle.std.specs.Prelude.{◌≡◌, ◌<◌, ◌≤◌, ◌+◌, ◌*◌, ◌%◌, ◌++◌, ℕ, List, All, None, IfOk, OnOk};
ghost use Rattle.ceph_dumps.specs.WideBytes.{is_lead, narrow_behind, wide, wide_byte};

use std::alloc::{AllocError, Global};

/// Adds a byte as a character.
fn push_wide(text: &mut Vec<u8>, byte: u8) -> Result<(), AllocError>
    ensures { OnOk result (text.new.items ≡ text.old.items ++ wide_byte byte) }
{
    if byte < 128 {
        text.push(byte)?;
    } else {
        text.push(192 + byte / 64)?;
        text.push(128 + byte % 64)?;
    }
    Ok(())
}

/// The greatest of the bytes, or 0. The whole is looked at, which a processor does for many bytes at once.
pub(crate) fn greatest(bytes: &[u8]) -> u8
    ensures { All (λ byte. byte ≤ result) bytes.now }
{
    let mut greatest = 0;
    for byte in bytes {
        greatest = (*byte).max(greatest);
    }
    greatest
}

/// Adds bytes as characters: as they are where each is below 0x80.
fn push_piece(text: &mut Vec<u8>, piece: &[u8]) -> Result<(), AllocError>
    ensures { OnOk result (text.new.items ≡ text.old.items ++ wide piece.now) }
{
    if greatest(piece) < 128 {
        return text.extend_from_slice(piece);
    }
    for byte in piece {
        push_wide(text, *byte)?;
    }
    Ok(())
}

/// How many bytes are widened at once.
const PIECE: usize = 256;

/// The bytes, each from 0x80 as the two bytes of the character of its number.
pub fn widened(alloc: Global, bytes: &[u8]) -> Result<Vec<u8>, AllocError>
    ensures { IfOk result (λ text. text.items ≡ wide bytes.now) }
{
    let mut text = Vec::with_capacity(alloc, bytes.len())?;
    let mut rest = bytes;
    while !rest.is_empty() {
        let (piece, behind) = rest.split_at(rest.len().min(PIECE));
        push_piece(&mut text, piece)?;
        rest = behind;
    }
    Ok(text)
}

/// The byte whose character these two bytes are.
fn joined(lead: u8, byte: u8) -> u8
    ensures { result ≡ lead % 4 * 64 + byte % 64 }
{
    lead % 4 * 64 + byte % 64
}

/// Whether this is the first byte of a character from 0x80 to 0xff.
fn is_first_of_two(byte: u8) -> bool
    ensures { result ≡ is_lead byte }
{
    matches!(byte, 194 | 195)
}

/// The bytes that were widened to this text.
pub fn narrowed(alloc: Global, text: &[u8]) -> Result<Vec<u8>, AllocError>
    ensures is { IfOk result (λ found. found.items ≡ narrow_behind None text.now) }
    ensures back { IfOk result (λ found. (bytes : List ℕ) → All (λ byte. byte < 256) bytes → text.now ≡ wide bytes
        → found.items ≡ bytes) }
{
    if greatest(text) < 128 {
        return Vec::from_slice(alloc, text);
    }
    let mut bytes = Vec::with_capacity(alloc, text.len())?;
    let mut lead = None;
    for byte in text {
        match lead {
            Some(first) => {
                bytes.push(joined(first, *byte))?;
                lead = None;
            }
            None if is_first_of_two(*byte) => lead = Some(*byte),
            None => bytes.push(*byte)?,
        }
    }
    Ok(bytes)
}
