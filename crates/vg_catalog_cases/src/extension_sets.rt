//! Sets of extensions.

use bitflags::Flags;
use std::process::Abort;
use std::test::Fail;
use vg_catalog::Extensions;

/// Asserts that an extension has this name and this bit.
fn expect_bits(rt: &impl Abort, name: &[u8], bits: u16) {
    let found = Extensions::from_name(name);
    assert!(rt; found.map_or(0, |set| set.bits()) == bits, "{bits}");
}

#[test]
fn each_extension_by_its_name(rt: HostRuntime) {
    expect_bits(&rt, b"SSE2", 1);
    expect_bits(&rt, b"SSE3", 2);
    expect_bits(&rt, b"SSSE3", 4);
    expect_bits(&rt, b"SSE4.1", 8);
    expect_bits(&rt, b"SSE4.2", 16);
    expect_bits(&rt, b"AVX", 32);
    expect_bits(&rt, b"AVX2", 64);
    expect_bits(&rt, b"AVX_VNNI", 128);
    expect_bits(&rt, b"AVX512F", 256);
    expect_bits(&rt, b"AVX512BW", 512);
}

#[test]
fn names_of_no_extension(rt: HostRuntime) {
    for name in "SSE,SSE4,SSE4_1,sse2,SSE2 ,AVX512,AVX512VL,".split(',') {
        assert!(rt; Extensions::from_name(name.as_bytes()).is_none(), "{name}");
    }
}
