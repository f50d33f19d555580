//! The superblock of a heap of one page a space, byte by byte.
use crate::compare::same;
use image_plan::{SUPER_BYTES, Super, read_super, write_super};

#[test]
fn written_and_read_again(rt: HostRuntime) {
    let of = Super {
        pages: 1,
        log_bytes: 1_048_576,
        first: 1,
    };
    let mut bytes = [0u8; SUPER_BYTES];
    bytes[..24].copy_from_slice(b"\x01stbheap\x01\0\0\0\x01\0\0\0\0\0\x10\0\x01\0\0\0");
    same(&rt, write_super(&of), bytes);
    same(&rt, read_super(&bytes), Some(of));
}
