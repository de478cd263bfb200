//! A certificate read, over and over.

use certificate::Certificate;
use std::alloc::Allocator;

/// How often of so many times a text is a certificate.
#[inline(never)]
pub fn read<A: Allocator + Copy>(alloc: A, bytes: &[u8], times: u16) -> u64 {
    let mut count = 0u64;
    for _ in 0..times {
        if Certificate::parse(alloc, bytes).is_ok() {
            count = count.wrapping_add(1);
        }
    }
    count
}
