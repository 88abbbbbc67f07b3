//! Bytes as texts.
use arrayvec::ArrayVec;

/// Adds the bytes of a text, if all its words are bytes, in hex digits, and there is room.
fn adds<const N: usize>(bytes: &mut ArrayVec<u8, N>, text: &str) -> bool {
    for word in text.split_whitespace() {
        match u8::from_str_radix(word, 16) {
            Ok(byte) if bytes.try_push(byte).is_ok() => {}
            _ => return false,
        }
    }
    true
}

/// The bytes of a text, if all its words are bytes, in hex digits, and there is room for them.
pub fn bytes_of<const N: usize>(text: &str) -> Option<ArrayVec<u8, N>> {
    let mut bytes = ArrayVec::new();
    if adds(&mut bytes, text) {
        Some(bytes)
    } else {
        None
    }
}
