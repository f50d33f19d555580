//! Numbers that stand in bytes.

/// The number of that many bytes which stands there, the lowest byte first, if all of them are there.
pub fn number_in(bytes: &[u8], at: usize, size: usize) -> Option<u64> {
    let taken = bytes.get(at..)?.get(..size)?;
    if let Some(word) = taken.first_chunk::<8>() {
        return Some(u64::from_le_bytes(*word));
    }
    let mut number: u64 = 0;
    for byte in taken.iter().rev() {
        number = number.wrapping_mul(256) | u64::from(*byte);
    }
    Some(number)
}

/// The number that stands there, or 0 if not all of its bytes do.
pub fn number(bytes: &[u8], at: usize, size: usize) -> u64 {
    number_in(bytes, at, size).unwrap_or(0)
}

/// The bytes from there on.
pub fn bytes_from(bytes: &[u8], at: usize) -> &[u8] {
    bytes.get(at..).unwrap_or(&[])
}
