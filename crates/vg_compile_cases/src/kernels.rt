//! The texts of kernels.

/// Four sums of two products of words.
pub const PRODUCTS: &[u8] = b"kernel products(d: noalias ptr, p: ptr, q: ptr) {
  store32(d + 0, sext32(load16(p + 0)) * sext32(load16(q + 0))
    + sext32(load16(p + 2)) * sext32(load16(q + 2)));
  store32(d + 4, sext32(load16(p + 4)) * sext32(load16(q + 4))
    + sext32(load16(p + 6)) * sext32(load16(q + 6)));
  store32(d + 8, sext32(load16(p + 8)) * sext32(load16(q + 8))
    + sext32(load16(p + 10)) * sext32(load16(q + 10)));
  store32(d + 12, sext32(load16(p + 12)) * sext32(load16(q + 12))
    + sext32(load16(p + 14)) * sext32(load16(q + 14)));
}
";

/// Eight double words, each clamped to a word.
pub const CLAMPS: &[u8] = b"kernel clamps(d: noalias ptr, p: ptr) {
  store16(d + 0, trunc16(smin(smax(load32(p + 0), -32768i32), 32767i32)));
  store16(d + 2, trunc16(smin(smax(load32(p + 4), -32768i32), 32767i32)));
  store16(d + 4, trunc16(smin(smax(load32(p + 8), -32768i32), 32767i32)));
  store16(d + 6, trunc16(smin(smax(load32(p + 12), -32768i32), 32767i32)));
  store16(d + 8, trunc16(smin(smax(load32(p + 16), -32768i32), 32767i32)));
  store16(d + 10, trunc16(smin(smax(load32(p + 20), -32768i32), 32767i32)));
  store16(d + 12, trunc16(smin(smax(load32(p + 24), -32768i32), 32767i32)));
  store16(d + 14, trunc16(smin(smax(load32(p + 28), -32768i32), 32767i32)));
}
";

/// Four double words, four products of bytes added to each.
pub const DOTS: &[u8] = b"kernel dots(d: noalias ptr, c: ptr, a: ptr, b: ptr) {
  store32(d + 0, load32(c + 0)
    + zext32(load8(a + 0)) * sext32(load8(b + 0))
    + zext32(load8(a + 1)) * sext32(load8(b + 1))
    + zext32(load8(a + 2)) * sext32(load8(b + 2))
    + zext32(load8(a + 3)) * sext32(load8(b + 3)));
  store32(d + 4, load32(c + 4)
    + zext32(load8(a + 4)) * sext32(load8(b + 4))
    + zext32(load8(a + 5)) * sext32(load8(b + 5))
    + zext32(load8(a + 6)) * sext32(load8(b + 6))
    + zext32(load8(a + 7)) * sext32(load8(b + 7)));
  store32(d + 8, load32(c + 8)
    + zext32(load8(a + 8)) * sext32(load8(b + 8))
    + zext32(load8(a + 9)) * sext32(load8(b + 9))
    + zext32(load8(a + 10)) * sext32(load8(b + 10))
    + zext32(load8(a + 11)) * sext32(load8(b + 11)));
  store32(d + 12, load32(c + 12)
    + zext32(load8(a + 12)) * sext32(load8(b + 12))
    + zext32(load8(a + 13)) * sext32(load8(b + 13))
    + zext32(load8(a + 14)) * sext32(load8(b + 14))
    + zext32(load8(a + 15)) * sext32(load8(b + 15)));
}
";

/// The sums of neighbours.
pub const PAIRS: &[u8] = b"kernel pairs(d: noalias ptr, p: ptr, q: ptr) {
  store32(d + 0, load32(p + 0) + load32(p + 4));
  store32(d + 4, load32(p + 8) + load32(p + 12));
  store32(d + 8, load32(q + 0) + load32(q + 4));
  store32(d + 12, load32(q + 8) + load32(q + 12));
}
";

/// Four sums, all loads before the stores.
pub const SUMS: &[u8] = b"kernel sums(d: ptr, p: ptr, q: ptr) {
  a0 = load32(p + 0);
  a1 = load32(p + 4);
  a2 = load32(p + 8);
  a3 = load32(p + 12);
  b0 = load32(q + 0);
  b1 = load32(q + 4);
  b2 = load32(q + 8);
  b3 = load32(q + 12);
  store32(d + 0, a0 + b0);
  store32(d + 4, a1 + b1);
  store32(d + 8, a2 + b2);
  store32(d + 12, a3 + b3);
}
";

/// Sixteen sums.
pub const WIDE_SUMS: &[u8] = b"kernel sums(d: noalias ptr, p: ptr, q: ptr) {
  store32(d + 0, load32(p + 0) + load32(q + 0));
  store32(d + 4, load32(p + 4) + load32(q + 4));
  store32(d + 8, load32(p + 8) + load32(q + 8));
  store32(d + 12, load32(p + 12) + load32(q + 12));
  store32(d + 16, load32(p + 16) + load32(q + 16));
  store32(d + 20, load32(p + 20) + load32(q + 20));
  store32(d + 24, load32(p + 24) + load32(q + 24));
  store32(d + 28, load32(p + 28) + load32(q + 28));
  store32(d + 32, load32(p + 32) + load32(q + 32));
  store32(d + 36, load32(p + 36) + load32(q + 36));
  store32(d + 40, load32(p + 40) + load32(q + 40));
  store32(d + 44, load32(p + 44) + load32(q + 44));
  store32(d + 48, load32(p + 48) + load32(q + 48));
  store32(d + 52, load32(p + 52) + load32(q + 52));
  store32(d + 56, load32(p + 56) + load32(q + 56));
  store32(d + 60, load32(p + 60) + load32(q + 60));
}
";

/// Four double words, and after them the same the other way round.
pub const REVERSED: &[u8] = b"kernel reversed(d: ptr, e: ptr, p: ptr) {
  a = load32(p + 0);
  b = load32(p + 4);
  c = load32(p + 8);
  f = load32(p + 12);
  store32(d + 0, a);
  store32(d + 4, b);
  store32(d + 8, c);
  store32(d + 12, f);
  store32(e + 0, f);
  store32(e + 4, c);
  store32(e + 8, b);
  store32(e + 12, a);
}
";

/// Two double words, none of which is changed by the other store.
pub const MOVED: &[u8] = b"kernel two(p: noalias ptr, q: ptr) {
  store32(p + 0, load32(q + 0));
  store32(p + 4, load32(q + 4));
}
";

/// The same where the first store may change the second.
pub const ALIASED: &[u8] = b"kernel two(p: ptr, q: ptr) {
  store32(p + 0, load32(q + 0));
  store32(p + 4, load32(q + 4));
}
";

/// A load whose value nothing takes.
pub const DEAD: &[u8] = b"kernel dead(p: ptr) {
  x = load8(p + 4);
}
";

/// Bytes 1 to 4, and over the last two of them and after bytes 5 to 8.
pub const OVERLAPPING: &[u8] = b"kernel over(d: ptr) {
  store32(d + 0, 67305985i32);
  store32(d + 2, 134678021i32);
}
";

/// The numbers 1 to 4.
pub const NUMBERS: &[u8] = b"kernel numbers(d: ptr) {
  store32(d + 0, 1i32);
  store32(d + 4, 2i32);
  store32(d + 8, 3i32);
  store32(d + 12, 4i32);
}
";

/// Two arguments.
pub const ARGUMENTS: &[u8] = b"kernel arguments(d: ptr, k: i32, m: i32) {
  store32(d + 0, k);
  store32(d + 4, m);
}
";

/// No statement.
pub const NOTHING: &[u8] = b"kernel none() {
}
";

/// Eight sums of eight neighbours, each times a number of its own.
pub const TAPS: &[u8] = b"kernel taps(d: noalias ptr, x: ptr) {
  store32(d + 0, load32(x + 0) * 3i32 + load32(x + 4) * 5i32
    + load32(x + 8) * 7i32 + load32(x + 12) * 9i32 + load32(x + 16) * 11i32
    + load32(x + 20) * 13i32 + load32(x + 24) * 15i32 + load32(x + 28) * 17i32);
  store32(d + 4, load32(x + 4) * 3i32 + load32(x + 8) * 5i32
    + load32(x + 12) * 7i32 + load32(x + 16) * 9i32 + load32(x + 20) * 11i32
    + load32(x + 24) * 13i32 + load32(x + 28) * 15i32 + load32(x + 32) * 17i32);
  store32(d + 8, load32(x + 8) * 3i32 + load32(x + 12) * 5i32
    + load32(x + 16) * 7i32 + load32(x + 20) * 9i32 + load32(x + 24) * 11i32
    + load32(x + 28) * 13i32 + load32(x + 32) * 15i32 + load32(x + 36) * 17i32);
  store32(d + 12, load32(x + 12) * 3i32 + load32(x + 16) * 5i32
    + load32(x + 20) * 7i32 + load32(x + 24) * 9i32 + load32(x + 28) * 11i32
    + load32(x + 32) * 13i32 + load32(x + 36) * 15i32 + load32(x + 40) * 17i32);
  store32(d + 16, load32(x + 16) * 3i32 + load32(x + 20) * 5i32
    + load32(x + 24) * 7i32 + load32(x + 28) * 9i32 + load32(x + 32) * 11i32
    + load32(x + 36) * 13i32 + load32(x + 40) * 15i32 + load32(x + 44) * 17i32);
  store32(d + 20, load32(x + 20) * 3i32 + load32(x + 24) * 5i32
    + load32(x + 28) * 7i32 + load32(x + 32) * 9i32 + load32(x + 36) * 11i32
    + load32(x + 40) * 13i32 + load32(x + 44) * 15i32 + load32(x + 48) * 17i32);
  store32(d + 24, load32(x + 24) * 3i32 + load32(x + 28) * 5i32
    + load32(x + 32) * 7i32 + load32(x + 36) * 9i32 + load32(x + 40) * 11i32
    + load32(x + 44) * 13i32 + load32(x + 48) * 15i32 + load32(x + 52) * 17i32);
  store32(d + 28, load32(x + 28) * 3i32 + load32(x + 32) * 5i32
    + load32(x + 36) * 7i32 + load32(x + 40) * 9i32 + load32(x + 44) * 11i32
    + load32(x + 48) * 13i32 + load32(x + 52) * 15i32 + load32(x + 56) * 17i32);
}
";

/// Four sums of four double words.
pub const SUMS_OF_SUMS: &[u8] = b"kernel sums(d: noalias ptr, p: ptr) {
  store32(d + 0, (load32(p + 0) + load32(p + 16)) + (load32(p + 32) + load32(p + 48)));
  store32(d + 4, (load32(p + 4) + load32(p + 20)) + (load32(p + 36) + load32(p + 52)));
  store32(d + 8, (load32(p + 8) + load32(p + 24)) + (load32(p + 40) + load32(p + 56)));
  store32(d + 12, (load32(p + 12) + load32(p + 28)) + (load32(p + 44) + load32(p + 60)));
}
";

/// Four sums of two double words and of two products of words.
pub const SUMS_AND_PRODUCTS: &[u8] = b"kernel both(d: noalias ptr, p: ptr, q: ptr) {
  store32(d + 0, (load32(d + 0) + load32(d + 16))
    + (sext32(load16(p + 0)) * sext32(load16(q + 0))
    + sext32(load16(p + 2)) * sext32(load16(q + 2))));
  store32(d + 4, (load32(d + 4) + load32(d + 20))
    + (sext32(load16(p + 4)) * sext32(load16(q + 4))
    + sext32(load16(p + 6)) * sext32(load16(q + 6))));
  store32(d + 8, (load32(d + 8) + load32(d + 24))
    + (sext32(load16(p + 8)) * sext32(load16(q + 8))
    + sext32(load16(p + 10)) * sext32(load16(q + 10))));
  store32(d + 12, (load32(d + 12) + load32(d + 28))
    + (sext32(load16(p + 12)) * sext32(load16(q + 12))
    + sext32(load16(p + 14)) * sext32(load16(q + 14))));
}
";

/// Four masks of words that are less than others.
pub const MASKS: &[u8] = b"kernel masks(d: noalias ptr, p: ptr, q: ptr) {
  store32(d + 0, select(slt(sext32(load16(p + 0)), sext32(load16(q + 0))),
    4294967295i32, 0i32));
  store32(d + 4, select(slt(sext32(load16(p + 2)), sext32(load16(q + 2))),
    4294967295i32, 0i32));
  store32(d + 8, select(slt(sext32(load16(p + 4)), sext32(load16(q + 4))),
    4294967295i32, 0i32));
  store32(d + 12, select(slt(sext32(load16(p + 6)), sext32(load16(q + 6))),
    4294967295i32, 0i32));
}
";

/// Seven less four double words.
pub const SEVEN_LESS: &[u8] = b"kernel less(d: noalias ptr, p: ptr) {
  store32(d + 0, 7i32 - load32(p + 0));
  store32(d + 4, 7i32 - load32(p + 4));
  store32(d + 8, 7i32 - load32(p + 8));
  store32(d + 12, 7i32 - load32(p + 12));
}
";

/// Four double words, the bytes of each in reverse.
pub const BYTES_REVERSED: &[u8] = b"kernel reversed(d: noalias ptr, p: ptr) {
  store8(d + 0, load8(p + 3));
  store8(d + 1, load8(p + 2));
  store8(d + 2, load8(p + 1));
  store8(d + 3, load8(p + 0));
  store8(d + 4, load8(p + 7));
  store8(d + 5, load8(p + 6));
  store8(d + 6, load8(p + 5));
  store8(d + 7, load8(p + 4));
  store8(d + 8, load8(p + 11));
  store8(d + 9, load8(p + 10));
  store8(d + 10, load8(p + 9));
  store8(d + 11, load8(p + 8));
  store8(d + 12, load8(p + 15));
  store8(d + 13, load8(p + 14));
  store8(d + 14, load8(p + 13));
  store8(d + 15, load8(p + 12));
}
";

/// The same, stored four bytes further on.
pub const BYTES_REVERSED_LATER: &[u8] = b"kernel reversed(d: noalias ptr, p: ptr) {
  store8(d + 4, load8(p + 3));
  store8(d + 5, load8(p + 2));
  store8(d + 6, load8(p + 1));
  store8(d + 7, load8(p + 0));
  store8(d + 8, load8(p + 7));
  store8(d + 9, load8(p + 6));
  store8(d + 10, load8(p + 5));
  store8(d + 11, load8(p + 4));
  store8(d + 12, load8(p + 11));
  store8(d + 13, load8(p + 10));
  store8(d + 14, load8(p + 9));
  store8(d + 15, load8(p + 8));
  store8(d + 16, load8(p + 15));
  store8(d + 17, load8(p + 14));
  store8(d + 18, load8(p + 13));
  store8(d + 19, load8(p + 12));
}
";

/// A row of four double words by a matrix of four rows.
pub const ROW_BY_MATRIX: &[u8] = b"kernel product(d: noalias ptr, a: ptr, b: ptr) {
  a0 = load32(a + 0);
  a1 = load32(a + 4);
  a2 = load32(a + 8);
  a3 = load32(a + 12);
  store32(d + 0, a0 * load32(b + 0) + a1 * load32(b + 16) + a2 * load32(b + 32) + a3 * load32(b + 48));
  store32(d + 4, a0 * load32(b + 4) + a1 * load32(b + 20) + a2 * load32(b + 36) + a3 * load32(b + 52));
  store32(d + 8, a0 * load32(b + 8) + a1 * load32(b + 24) + a2 * load32(b + 40) + a3 * load32(b + 56));
  store32(d + 12, a0 * load32(b + 12) + a1 * load32(b + 28) + a2 * load32(b + 44) + a3 * load32(b + 60));
}
";

/// A matrix of four rows of double words by another.
pub const MATRICES: &[u8] = b"kernel products(d: noalias ptr, a: ptr, b: ptr) {
  a00 = load32(a + 0);
  a01 = load32(a + 4);
  a02 = load32(a + 8);
  a03 = load32(a + 12);
  a10 = load32(a + 16);
  a11 = load32(a + 20);
  a12 = load32(a + 24);
  a13 = load32(a + 28);
  a20 = load32(a + 32);
  a21 = load32(a + 36);
  a22 = load32(a + 40);
  a23 = load32(a + 44);
  a30 = load32(a + 48);
  a31 = load32(a + 52);
  a32 = load32(a + 56);
  a33 = load32(a + 60);
  b00 = load32(b + 0);
  b01 = load32(b + 4);
  b02 = load32(b + 8);
  b03 = load32(b + 12);
  b10 = load32(b + 16);
  b11 = load32(b + 20);
  b12 = load32(b + 24);
  b13 = load32(b + 28);
  b20 = load32(b + 32);
  b21 = load32(b + 36);
  b22 = load32(b + 40);
  b23 = load32(b + 44);
  b30 = load32(b + 48);
  b31 = load32(b + 52);
  b32 = load32(b + 56);
  b33 = load32(b + 60);
  store32(d + 0, a00 * b00 + a01 * b10 + a02 * b20 + a03 * b30);
  store32(d + 4, a00 * b01 + a01 * b11 + a02 * b21 + a03 * b31);
  store32(d + 8, a00 * b02 + a01 * b12 + a02 * b22 + a03 * b32);
  store32(d + 12, a00 * b03 + a01 * b13 + a02 * b23 + a03 * b33);
  store32(d + 16, a10 * b00 + a11 * b10 + a12 * b20 + a13 * b30);
  store32(d + 20, a10 * b01 + a11 * b11 + a12 * b21 + a13 * b31);
  store32(d + 24, a10 * b02 + a11 * b12 + a12 * b22 + a13 * b32);
  store32(d + 28, a10 * b03 + a11 * b13 + a12 * b23 + a13 * b33);
  store32(d + 32, a20 * b00 + a21 * b10 + a22 * b20 + a23 * b30);
  store32(d + 36, a20 * b01 + a21 * b11 + a22 * b21 + a23 * b31);
  store32(d + 40, a20 * b02 + a21 * b12 + a22 * b22 + a23 * b32);
  store32(d + 44, a20 * b03 + a21 * b13 + a22 * b23 + a23 * b33);
  store32(d + 48, a30 * b00 + a31 * b10 + a32 * b20 + a33 * b30);
  store32(d + 52, a30 * b01 + a31 * b11 + a32 * b21 + a33 * b31);
  store32(d + 56, a30 * b02 + a31 * b12 + a32 * b22 + a33 * b32);
  store32(d + 60, a30 * b03 + a31 * b13 + a32 * b23 + a33 * b33);
}
";

/// A number, and four sums of four double words right after it.
pub const SEVEN_AND_SUMS: &[u8] = b"kernel sums(d: noalias ptr, p: ptr) {
  store32(d + 0, 7i32);
  store32(d + 4, (load32(p + 0) + load32(p + 16)) + (load32(p + 32) + load32(p + 48)));
  store32(d + 8, (load32(p + 4) + load32(p + 20)) + (load32(p + 36) + load32(p + 52)));
  store32(d + 12, (load32(p + 8) + load32(p + 24)) + (load32(p + 40) + load32(p + 56)));
  store32(d + 16, (load32(p + 12) + load32(p + 28)) + (load32(p + 44) + load32(p + 60)));
}
";

/// Sixty-eight sums of two double words.
pub const SIXTY_EIGHT_SUMS: &[u8] = b"kernel sums(d: noalias ptr, p: ptr, q: ptr) {
  store32(d + 0, load32(p + 0) + load32(q + 0));
  store32(d + 4, load32(p + 4) + load32(q + 4));
  store32(d + 8, load32(p + 8) + load32(q + 8));
  store32(d + 12, load32(p + 12) + load32(q + 12));
  store32(d + 16, load32(p + 16) + load32(q + 16));
  store32(d + 20, load32(p + 20) + load32(q + 20));
  store32(d + 24, load32(p + 24) + load32(q + 24));
  store32(d + 28, load32(p + 28) + load32(q + 28));
  store32(d + 32, load32(p + 32) + load32(q + 32));
  store32(d + 36, load32(p + 36) + load32(q + 36));
  store32(d + 40, load32(p + 40) + load32(q + 40));
  store32(d + 44, load32(p + 44) + load32(q + 44));
  store32(d + 48, load32(p + 48) + load32(q + 48));
  store32(d + 52, load32(p + 52) + load32(q + 52));
  store32(d + 56, load32(p + 56) + load32(q + 56));
  store32(d + 60, load32(p + 60) + load32(q + 60));
  store32(d + 64, load32(p + 64) + load32(q + 64));
  store32(d + 68, load32(p + 68) + load32(q + 68));
  store32(d + 72, load32(p + 72) + load32(q + 72));
  store32(d + 76, load32(p + 76) + load32(q + 76));
  store32(d + 80, load32(p + 80) + load32(q + 80));
  store32(d + 84, load32(p + 84) + load32(q + 84));
  store32(d + 88, load32(p + 88) + load32(q + 88));
  store32(d + 92, load32(p + 92) + load32(q + 92));
  store32(d + 96, load32(p + 96) + load32(q + 96));
  store32(d + 100, load32(p + 100) + load32(q + 100));
  store32(d + 104, load32(p + 104) + load32(q + 104));
  store32(d + 108, load32(p + 108) + load32(q + 108));
  store32(d + 112, load32(p + 112) + load32(q + 112));
  store32(d + 116, load32(p + 116) + load32(q + 116));
  store32(d + 120, load32(p + 120) + load32(q + 120));
  store32(d + 124, load32(p + 124) + load32(q + 124));
  store32(d + 128, load32(p + 128) + load32(q + 128));
  store32(d + 132, load32(p + 132) + load32(q + 132));
  store32(d + 136, load32(p + 136) + load32(q + 136));
  store32(d + 140, load32(p + 140) + load32(q + 140));
  store32(d + 144, load32(p + 144) + load32(q + 144));
  store32(d + 148, load32(p + 148) + load32(q + 148));
  store32(d + 152, load32(p + 152) + load32(q + 152));
  store32(d + 156, load32(p + 156) + load32(q + 156));
  store32(d + 160, load32(p + 160) + load32(q + 160));
  store32(d + 164, load32(p + 164) + load32(q + 164));
  store32(d + 168, load32(p + 168) + load32(q + 168));
  store32(d + 172, load32(p + 172) + load32(q + 172));
  store32(d + 176, load32(p + 176) + load32(q + 176));
  store32(d + 180, load32(p + 180) + load32(q + 180));
  store32(d + 184, load32(p + 184) + load32(q + 184));
  store32(d + 188, load32(p + 188) + load32(q + 188));
  store32(d + 192, load32(p + 192) + load32(q + 192));
  store32(d + 196, load32(p + 196) + load32(q + 196));
  store32(d + 200, load32(p + 200) + load32(q + 200));
  store32(d + 204, load32(p + 204) + load32(q + 204));
  store32(d + 208, load32(p + 208) + load32(q + 208));
  store32(d + 212, load32(p + 212) + load32(q + 212));
  store32(d + 216, load32(p + 216) + load32(q + 216));
  store32(d + 220, load32(p + 220) + load32(q + 220));
  store32(d + 224, load32(p + 224) + load32(q + 224));
  store32(d + 228, load32(p + 228) + load32(q + 228));
  store32(d + 232, load32(p + 232) + load32(q + 232));
  store32(d + 236, load32(p + 236) + load32(q + 236));
  store32(d + 240, load32(p + 240) + load32(q + 240));
  store32(d + 244, load32(p + 244) + load32(q + 244));
  store32(d + 248, load32(p + 248) + load32(q + 248));
  store32(d + 252, load32(p + 252) + load32(q + 252));
  store32(d + 256, load32(p + 256) + load32(q + 256));
  store32(d + 260, load32(p + 260) + load32(q + 260));
  store32(d + 264, load32(p + 264) + load32(q + 264));
  store32(d + 268, load32(p + 268) + load32(q + 268));
}
";

/// A quarter of three times a byte and a byte, in double words.
pub const WEIGHED: &[u8] = b"kernel weighed(d: noalias ptr, p: ptr, q: ptr) {
  store8(d + 0, trunc8(lshr(zext32(load8(p + 0)) * 3i32 + zext32(load8(q + 0)), 2)));
  store8(d + 1, trunc8(lshr(zext32(load8(p + 1)) * 3i32 + zext32(load8(q + 1)), 2)));
  store8(d + 2, trunc8(lshr(zext32(load8(p + 2)) * 3i32 + zext32(load8(q + 2)), 2)));
  store8(d + 3, trunc8(lshr(zext32(load8(p + 3)) * 3i32 + zext32(load8(q + 3)), 2)));
  store8(d + 4, trunc8(lshr(zext32(load8(p + 4)) * 3i32 + zext32(load8(q + 4)), 2)));
  store8(d + 5, trunc8(lshr(zext32(load8(p + 5)) * 3i32 + zext32(load8(q + 5)), 2)));
  store8(d + 6, trunc8(lshr(zext32(load8(p + 6)) * 3i32 + zext32(load8(q + 6)), 2)));
  store8(d + 7, trunc8(lshr(zext32(load8(p + 7)) * 3i32 + zext32(load8(q + 7)), 2)));
}
";

/// Sums of neighbours, each of them loaded once.
pub const NEIGHBOURS: &[u8] = b"kernel neighbours(d: noalias ptr, p: ptr) {
  a0 = load32(p + 0);
  a1 = load32(p + 4);
  a2 = load32(p + 8);
  a3 = load32(p + 12);
  a4 = load32(p + 16);
  store32(d + 0, a0 + a1);
  store32(d + 4, a1 + a2);
  store32(d + 8, a2 + a3);
  store32(d + 12, a3 + a4);
}
";

/// The same where what is stored may be what is loaded.
pub const NEIGHBOURS_THAT_MEET: &[u8] = b"kernel neighbours(d: ptr, p: ptr) {
  a0 = load32(p + 0);
  a1 = load32(p + 4);
  a2 = load32(p + 8);
  a3 = load32(p + 12);
  a4 = load32(p + 16);
  store32(d + 0, a0 + a1);
  store32(d + 4, a1 + a2);
  store32(d + 8, a2 + a3);
  store32(d + 12, a3 + a4);
}
";

/// Rounded means of neighbours, in double words.
pub const MEANS: &[u8] = b"kernel means(d: noalias ptr, p: ptr) {
  a0 = zext32(load8(p + 0));
  a1 = zext32(load8(p + 1));
  a2 = zext32(load8(p + 2));
  a3 = zext32(load8(p + 3));
  a4 = zext32(load8(p + 4));
  a5 = zext32(load8(p + 5));
  a6 = zext32(load8(p + 6));
  a7 = zext32(load8(p + 7));
  a8 = zext32(load8(p + 8));
  store8(d + 0, trunc8(lshr(a0 + a1 + 1i32, 1)));
  store8(d + 1, trunc8(lshr(a1 + a2 + 1i32, 1)));
  store8(d + 2, trunc8(lshr(a2 + a3 + 1i32, 1)));
  store8(d + 3, trunc8(lshr(a3 + a4 + 1i32, 1)));
  store8(d + 4, trunc8(lshr(a4 + a5 + 1i32, 1)));
  store8(d + 5, trunc8(lshr(a5 + a6 + 1i32, 1)));
  store8(d + 6, trunc8(lshr(a6 + a7 + 1i32, 1)));
  store8(d + 7, trunc8(lshr(a7 + a8 + 1i32, 1)));
}
";

/// Halves of signed bytes, rounded up: the low bits of a negative number come from above.
pub const HALVES: &[u8] = b"kernel halves(d: noalias ptr, p: ptr) {
  store8(d + 0, trunc8(lshr(sext32(load8(p + 0)) + 1i32, 1)));
  store8(d + 1, trunc8(lshr(sext32(load8(p + 1)) + 1i32, 1)));
  store8(d + 2, trunc8(lshr(sext32(load8(p + 2)) + 1i32, 1)));
  store8(d + 3, trunc8(lshr(sext32(load8(p + 3)) + 1i32, 1)));
  store8(d + 4, trunc8(lshr(sext32(load8(p + 4)) + 1i32, 1)));
  store8(d + 5, trunc8(lshr(sext32(load8(p + 5)) + 1i32, 1)));
  store8(d + 6, trunc8(lshr(sext32(load8(p + 6)) + 1i32, 1)));
  store8(d + 7, trunc8(lshr(sext32(load8(p + 7)) + 1i32, 1)));
}
";
