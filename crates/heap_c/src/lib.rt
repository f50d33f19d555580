//! The heap for C, in memory that C gives: four calls that take numbers and one pointer. Each is one call of `heap_embed`.
#![tactic(auto)]

ghost use types.Logic.{sem};
ghost use Rattle.heap_c.specs.Kept.{kept, room};

mod kept;

use kept::{Kept, call, end, make};
use std::alloc::Global;
use std::mem::size_of;
use std::ptr;

/// What C sees of it.
#[repr(C)]
#[derive(Clone, Copy)]
pub struct Opaque {
    hidden: u8,
}

/// The bytes that C has to give, aligned to 16.
#[unsafe(no_mangle)]
pub extern "C" fn heap_c_size() -> usize {
    size_of::<Kept>()
}

/// Makes a heap in the room that C gives, to which nothing was handed in yet.
#[unsafe(no_mangle)]
pub unsafe extern "C" fn heap_c_open(alloc: Global, at: *mut Opaque)
    requires* { sem 𝓛 (room at) }
    ensures* { sem 𝓛 (kept at) }
{
    ptr::write(at as *mut Kept, make(alloc))
}

/// Asks what the numbers spell, and answers by a number.
#[unsafe(no_mangle)]
pub unsafe extern "C" fn heap_c_call(
    at: *mut Opaque,
    op: u64,
    s: u64,
    a: u64,
    b: u64,
    c: u64,
) -> u64
    requires* { sem 𝓛 (kept at) }
    ensures* { sem 𝓛 (kept at) }
{
    call(&mut *(at as *mut Kept), op, s, a, b, c)
}

/// Ends the heap, and leaves the room.
#[unsafe(no_mangle)]
pub unsafe extern "C" fn heap_c_close(at: *mut Opaque)
    requires* { sem 𝓛 (kept at) }
    ensures* { sem 𝓛 (room at) }
{
    end(ptr::read(at as *mut Kept))
}
