//! The texts of entries.

pub const ADD: &[u8] = b"INSTRUCTION _mm_add_epi32 PARAM a 128 SI32 PARAM b 128 SI32
RESULT dst 128 SI32 EXTENSION SSE2 COST 1 OPERATION
FOR j := 0 to 3
 i := j*32
 dst[i+31:i] := a[i+31:i] + b[i+31:i]
ENDFOR
dst[MAX:128] := 0
END
";

pub const WIDE_ADD: &[u8] = b"INSTRUCTION _mm512_add_epi32 PARAM a 512 SI32 PARAM b 512 SI32
RESULT dst 512 SI32 EXTENSION AVX512F COST 1 OPERATION
FOR j := 0 to 15
 i := j*32
 dst[i+31:i] := a[i+31:i] + b[i+31:i]
ENDFOR
END
";

/// A sum of cost 1 and a product of cost 2, of 256 bits each.
pub const SUM_AND_PRODUCT: &[u8] = b"INSTRUCTION _mm256_add_epi32 PARAM a 256 SI32 PARAM b 256 SI32
RESULT dst 256 SI32 EXTENSION AVX2 COST 1 OPERATION
FOR j := 0 to 7
 i := j*32
 dst[i+31:i] := a[i+31:i] + b[i+31:i]
ENDFOR
dst[MAX:256] := 0
END
INSTRUCTION _mm256_mullo_epi32 PARAM a 256 SI32 PARAM b 256 SI32
RESULT dst 256 SI32 EXTENSION AVX2 COST 2 OPERATION
FOR j := 0 to 7
 i := j*32
 tmp[63:0] := a[i+31:i] * b[i+31:i]
 dst[i+31:i] := tmp[31:0]
ENDFOR
END
";

pub const MADD: &[u8] = b"INSTRUCTION _mm_madd_epi16 PARAM a 128 SI16 PARAM b 128 SI16
RESULT dst 128 SI32 EXTENSION SSE2 COST 1 OPERATION
FOR j := 0 to 3
 i := j*32
 dst[i+31:i] := SignExtend32(a[i+31:i+16]*b[i+31:i+16]) + SignExtend32(a[i+15:i]*b[i+15:i])
ENDFOR
dst[MAX:128] := 0
END
";

pub const PACKS: &[u8] = b"INSTRUCTION _mm_packs_epi32 PARAM a 128 SI32 PARAM b 128 SI32
RESULT dst 128 SI16 EXTENSION SSE2 COST 1 OPERATION
FOR j := 0 to 3
 dst.word[j] := Saturate16(a.dword[j])
 dst.word[j+4] := Saturate16(b.dword[j])
ENDFOR
END
";

pub const HADD: &[u8] = b"INSTRUCTION _mm_hadd_epi32 PARAM a 128 SI32 PARAM b 128 SI32
RESULT dst 128 SI32 EXTENSION SSSE3 COST 3 OPERATION
dst[31:0] := a[63:32] + a[31:0]
dst[63:32] := a[127:96] + a[95:64]
dst[95:64] := b[63:32] + b[31:0]
dst[127:96] := b[127:96] + b[95:64]
END
";

pub const SHUFFLE: &[u8] = b"INSTRUCTION _mm_shuffle_epi32 PARAM a 128 UI32 IMM imm8 0 to 255
RESULT dst 128 UI32 EXTENSION SSE2 COST 1 OPERATION
DEFINE SELECT4(src, control) {
 CASE(control[1:0]) OF
 0: tmp[31:0] := src[31:0]
 1: tmp[31:0] := src[63:32]
 2: tmp[31:0] := src[95:64]
 3: tmp[31:0] := src[127:96]
 ESAC
 RETURN tmp[31:0]
}
dst[31:0] := SELECT4(a[127:0], imm8[1:0])
dst[63:32] := SELECT4(a[127:0], imm8[3:2])
dst[95:64] := SELECT4(a[127:0], imm8[5:4])
dst[127:96] := SELECT4(a[127:0], imm8[7:6])
END
";

pub const DPBUSD: &[u8] =
    b"INSTRUCTION _mm_dpbusd_epi32 PARAM src 128 SI32 PARAM a 128 UI8 PARAM b 128 SI8
RESULT dst 128 SI32 EXTENSION AVX_VNNI COST 1 OPERATION
FOR j := 0 to 3
 tmp1.word := Signed(ZeroExtend16(a.byte[4*j]) * SignExtend16(b.byte[4*j]))
 tmp2.word := Signed(ZeroExtend16(a.byte[4*j+1]) * SignExtend16(b.byte[4*j+1]))
 tmp3.word := Signed(ZeroExtend16(a.byte[4*j+2]) * SignExtend16(b.byte[4*j+2]))
 tmp4.word := Signed(ZeroExtend16(a.byte[4*j+3]) * SignExtend16(b.byte[4*j+3]))
 dst.dword[j] := src.dword[j] + tmp1 + tmp2 + tmp3 + tmp4
ENDFOR
dst[MAX:128] := 0
END
";

/// Sums, and sums of two products of words.
pub const ADD_AND_MADD: &[u8] = b"INSTRUCTION _mm_add_epi32 PARAM a 128 SI32 PARAM b 128 SI32
RESULT dst 128 SI32 EXTENSION SSE2 COST 1 OPERATION
FOR j := 0 to 3
 i := j*32
 dst[i+31:i] := a[i+31:i] + b[i+31:i]
ENDFOR
dst[MAX:128] := 0
END
INSTRUCTION _mm_madd_epi16 PARAM a 128 SI16 PARAM b 128 SI16
RESULT dst 128 SI32 EXTENSION SSE2 COST 1 OPERATION
FOR j := 0 to 3
 i := j*32
 dst[i+31:i] := SignExtend32(a[i+31:i+16]*b[i+31:i+16]) + SignExtend32(a[i+15:i]*b[i+15:i])
ENDFOR
dst[MAX:128] := 0
END
";

/// Comparisons of double words, and words made double words.
pub const GREATER_AND_WIDEN: &[u8] = b"INSTRUCTION _mm_cmpgt_epi32 PARAM a 128 SI32 PARAM b 128 SI32
RESULT dst 128 UI32 EXTENSION SSE2 COST 1 OPERATION
FOR j := 0 to 3
 i := j*32
 dst[i+31:i] := (a[i+31:i] > b[i+31:i]) ? 0xFFFFFFFF : 0
ENDFOR
END
INSTRUCTION _mm_cvtepi16_epi32 PARAM a 128 SI16
RESULT dst 128 SI32 EXTENSION SSE4.1 COST 1 OPERATION
FOR j := 0 to 3
 dst.dword[j] := SignExtend32(a.word[j])
ENDFOR
END
";

pub const SUB: &[u8] = b"INSTRUCTION _mm_sub_epi32 PARAM a 128 SI32 PARAM b 128 SI32
RESULT dst 128 SI32 EXTENSION SSE2 COST 1 OPERATION
FOR j := 0 to 3
 i := j*32
 dst[i+31:i] := a[i+31:i] - b[i+31:i]
ENDFOR
END
";

/// The bytes of four double words, each in reverse.
pub const SWAP: &[u8] = b"INSTRUCTION seq_bswap PARAM a 128 UI8
RESULT dst 128 UI8 EXTENSION SSSE3 COST 2 OPERATION
FOR j := 0 to 3
 dst.byte[4*j] := a.byte[4*j+3]
 dst.byte[4*j+1] := a.byte[4*j+2]
 dst.byte[4*j+2] := a.byte[4*j+1]
 dst.byte[4*j+3] := a.byte[4*j]
ENDFOR
END
";

/// Sums, shuffles and products of four double words.
pub const SUMS_SHUFFLES_PRODUCTS: &[u8] =
    b"INSTRUCTION _mm_add_epi32 PARAM a 128 SI32 PARAM b 128 SI32
RESULT dst 128 SI32 EXTENSION SSE2 COST 1 OPERATION
FOR j := 0 to 3
 i := j*32
 dst[i+31:i] := a[i+31:i] + b[i+31:i]
ENDFOR
dst[MAX:128] := 0
END
INSTRUCTION _mm_shuffle_epi32 PARAM a 128 UI32 IMM imm8 0 to 255
RESULT dst 128 UI32 EXTENSION SSE2 COST 1 OPERATION
DEFINE SELECT4(src, control) {
 CASE(control[1:0]) OF
 0: tmp[31:0] := src[31:0]
 1: tmp[31:0] := src[63:32]
 2: tmp[31:0] := src[95:64]
 3: tmp[31:0] := src[127:96]
 ESAC
 RETURN tmp[31:0]
}
dst[31:0] := SELECT4(a[127:0], imm8[1:0])
dst[63:32] := SELECT4(a[127:0], imm8[3:2])
dst[95:64] := SELECT4(a[127:0], imm8[5:4])
dst[127:96] := SELECT4(a[127:0], imm8[7:6])
END
INSTRUCTION _mm_mullo_epi32 PARAM a 128 SI32 PARAM b 128 SI32
RESULT dst 128 SI32 EXTENSION SSE4.1 COST 2 OPERATION
FOR j := 0 to 3
 i := j*32
 tmp[63:0] := a[i+31:i] * b[i+31:i]
 dst[i+31:i] := tmp[31:0]
ENDFOR
END
";

/// Sums, products and shifts of eight words, of bytes that are widened, and words that are cut to bytes.
pub const WORDS: &[u8] = b"INSTRUCTION _mm_cvtepu8_epi16 PARAM a 128 UI8
RESULT dst 128 UI16 EXTENSION SSE4.1 COST 1 OPERATION
FOR j := 0 to 7
 dst.word[j] := ZeroExtend16(a.byte[j])
ENDFOR
END
INSTRUCTION _mm_add_epi16 PARAM a 128 SI16 PARAM b 128 SI16
RESULT dst 128 SI16 EXTENSION SSE2 COST 1 OPERATION
FOR j := 0 to 7
 dst.word[j] := a.word[j] + b.word[j]
ENDFOR
END
INSTRUCTION _mm_mullo_epi16 PARAM a 128 SI16 PARAM b 128 SI16
RESULT dst 128 SI16 EXTENSION SSE2 COST 1 OPERATION
FOR j := 0 to 7
 dst.word[j] := a.word[j] * b.word[j]
ENDFOR
END
INSTRUCTION _mm_srli_epi16 PARAM a 128 UI16 IMM imm8 1 to 15
RESULT dst 128 UI16 EXTENSION SSE2 COST 1 OPERATION
FOR j := 0 to 7
 dst.word[j] := a.word[j] >> imm8
ENDFOR
END
INSTRUCTION x_trunc16_8 PARAM a 128 UI16 RESULT dst 128 UI8 EXTENSION SSSE3 COST 1 OPERATION
FOR j := 0 to 7
 dst.byte[j] := Truncate8(a.word[j])
ENDFOR
dst[MAX:64] := 0
END
";

/// The rounded mean of bytes.
pub const MEAN: &[u8] = b"INSTRUCTION _mm_avg_epu8 PARAM a 128 UI8 PARAM b 128 UI8
RESULT dst 128 UI8 EXTENSION SSE2 COST 1 OPERATION
FOR j := 0 to 15
 dst.byte[j] := (a.byte[j] + b.byte[j] + 1) >> 1
ENDFOR
END
";
