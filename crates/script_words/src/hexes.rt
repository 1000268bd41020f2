//! Hexadecimal words, in either case.

ghost use Rattle.std.specs.Prelude.{◌≡◌, ◌≤◌, IfOk, option_map};
ghost use Rattle.script_words.specs.Hexes.{byte_in, hex_in, long_tag_in, tag_in};

use arrayvec::ArrayVec;
use fault_schedule::ShortBytes;
use std::alloc::{AllocError, Global};

/// The byte that two digits spell.
pub fn byte(word: &[u8]) -> Option<u8>
    ensures { result ≡ byte_in word.now }
{
    let mut bytes = [0u8; 1];
    match hex::decode_to_slice(word, &mut bytes) {
        Ok(()) => Some(u8::from_be_bytes(bytes)),
        Err(_) => None,
    }
}

/// The application tag that four digits spell.
pub fn tag(word: &[u8]) -> Option<u16>
    ensures { result ≡ tag_in word.now }
{
    let mut bytes = [0u8; 2];
    match hex::decode_to_slice(word, &mut bytes) {
        Ok(()) => Some(u16::from_be_bytes(bytes)),
        Err(_) => None,
    }
}

/// The reference tag that eight digits spell.
pub fn long_tag(word: &[u8]) -> Option<u32>
    ensures { result ≡ long_tag_in word.now }
{
    let mut bytes = [0u8; 4];
    match hex::decode_to_slice(word, &mut bytes) {
        Ok(()) => Some(u32::from_be_bytes(bytes)),
        Err(_) => None,
    }
}

/// The bytes that the word spells, 1 to 32. It takes no memory.
pub fn short_hex(word: &[u8]) -> Option<ShortBytes>
    ensures { option_map (λ b. b) result ≡ hex_in 32 word.now }
{
    let count = word.len() / 2;
    if word.is_empty() || word.len() > 64 {
        return None;
    }
    let mut digits = [0u8; 32];
    let (part, _) = digits.split_at_mut(count);
    match hex::decode_to_slice(word, part) {
        Ok(()) => {
            let mut bytes = ArrayVec::new();
            match bytes.try_extend_from_slice(part) {
                Ok(()) => Some(ShortBytes::from_array(bytes)),
                Err(_) => unreachable!(),
            }
        }
        Err(_) => None,
    }
}

/// The bytes that the word spells, 1 to 512; `None` where it doesn't spell such. The one error is
/// want of memory.
pub fn hex_bytes(alloc: Global, word: &[u8]) -> Result<Option<Vec<u8>>, AllocError>
    ensures { IfOk result (λ found. option_map (λ v. v.items) found ≡ hex_in 512 word.now) }
{
    if word.is_empty() || word.len() > 1024 {
        return Ok(None);
    }
    let mut bytes = vec![in alloc; 0u8; word.len() / 2]?;
    match hex::decode_to_slice(word, bytes.as_mut_slice()) {
        Ok(()) => Ok(Some(bytes)),
        Err(_) => Ok(None),
    }
}
