//! The entries whose lanes are compared.

/// Twenty-one entries.
pub const ENTRIES: &str = "INSTRUCTION _mm_add_epi32 PARAM a 128 SI32 PARAM b 128 SI32
RESULT dst 128 SI32 EXTENSION SSE2 COST 1 OPERATION
FOR j := 0 to 3
 i := j*32
 dst[i+31:i] := a[i+31:i] + b[i+31:i]
ENDFOR
dst[MAX:128] := 0
END
INSTRUCTION _mm256_add_epi32 PARAM a 256 SI32 PARAM b 256 SI32
RESULT dst 256 SI32 EXTENSION AVX2 COST 1 OPERATION
FOR j := 0 to 7
 i := j*32
 dst[i+31:i] := a[i+31:i] + b[i+31:i]
ENDFOR
dst[MAX:256] := 0
END
INSTRUCTION _mm256_mullo_epi32 PARAM a 256 SI32 PARAM b 256 SI32
RESULT dst 256 SI32 EXTENSION AVX2 COST 2 OPERATION
FOR j := 0 to 7
 i := j*32
 tmp[63:0] := a[i+31:i] * b[i+31:i]
 dst[i+31:i] := tmp[31:0]
ENDFOR
END
INSTRUCTION _mm_mulhi_epi16 PARAM a 128 SI16 PARAM b 128 SI16
RESULT dst 128 SI16 EXTENSION SSE2 COST 1 OPERATION
FOR j := 0 to 7
 i := j*16
 tmp[31:0] := SignExtend32(a[i+15:i]) * SignExtend32(b[i+15:i])
 dst[i+15:i] := tmp[31:16]
ENDFOR
END
INSTRUCTION _mm_madd_epi16 PARAM a 128 SI16 PARAM b 128 SI16
RESULT dst 128 SI32 EXTENSION SSE2 COST 1 OPERATION
FOR j := 0 to 3
 i := j*32
 dst[i+31:i] := SignExtend32(a[i+31:i+16]*b[i+31:i+16]) + SignExtend32(a[i+15:i]*b[i+15:i])
ENDFOR
dst[MAX:128] := 0
END
INSTRUCTION _mm_packs_epi32 PARAM a 128 SI32 PARAM b 128 SI32
RESULT dst 128 SI16 EXTENSION SSE2 COST 1 OPERATION
FOR j := 0 to 3
 dst.word[j] := Saturate16(a.dword[j])
 dst.word[j+4] := Saturate16(b.dword[j])
ENDFOR
END
INSTRUCTION _mm256_packs_epi32 PARAM a 256 SI32 PARAM b 256 SI32
RESULT dst 256 SI16 EXTENSION AVX2 COST 1 OPERATION
FOR h := 0 to 1
 FOR j := 0 to 3
  dst.word[8*h+j] := Saturate16(a.dword[4*h+j])
  dst.word[8*h+j+4] := Saturate16(b.dword[4*h+j])
 ENDFOR
ENDFOR
END
INSTRUCTION _mm_avg_epu8 PARAM a 128 UI8 PARAM b 128 UI8
RESULT dst 128 UI8 EXTENSION SSE2 COST 1 OPERATION
FOR j := 0 to 15
 i := j*8
 dst[i+7:i] := (a[i+7:i] + b[i+7:i] + 1) >> 1
ENDFOR
END
INSTRUCTION _mm_subs_epu8 PARAM a 128 UI8 PARAM b 128 UI8
RESULT dst 128 UI8 EXTENSION SSE2 COST 1 OPERATION
FOR j := 0 to 15
 i := j*8
 dst[i+7:i] := SaturateU8(a[i+7:i] - b[i+7:i])
ENDFOR
END
INSTRUCTION _mm_sad_epu8 PARAM a 128 UI8 PARAM b 128 UI8
RESULT dst 128 UI64 EXTENSION SSE2 COST 1 OPERATION
FOR j := 0 to 15
 i := j*8
 tmp[i+7:i] := ABS(a[i+7:i] - b[i+7:i])
ENDFOR
FOR j := 0 to 1
 i := j*64
 dst[i+15:i] := tmp[i+7:i] + tmp[i+15:i+8] + tmp[i+23:i+16] + tmp[i+31:i+24] + tmp[i+39:i+32] + tmp[i+47:i+40] + tmp[i+55:i+48] + tmp[i+63:i+56]
 dst[i+63:i+16] := 0
ENDFOR
END
INSTRUCTION _mm_maddubs_epi16 PARAM a 128 UI8 PARAM b 128 SI8
RESULT dst 128 SI16 EXTENSION SSSE3 COST 1 OPERATION
FOR j := 0 to 7
 i := j*16
 dst[i+15:i] := Saturate16(a[i+15:i+8]*b[i+15:i+8] + a[i+7:i]*b[i+7:i])
ENDFOR
END
INSTRUCTION _mm_hadd_epi32 PARAM a 128 SI32 PARAM b 128 SI32
RESULT dst 128 SI32 EXTENSION SSSE3 COST 3 OPERATION
dst[31:0] := a[63:32] + a[31:0]
dst[63:32] := a[127:96] + a[95:64]
dst[95:64] := b[63:32] + b[31:0]
dst[127:96] := b[127:96] + b[95:64]
END
INSTRUCTION _mm_cvtepi16_epi32 PARAM a 128 SI16
RESULT dst 128 SI32 EXTENSION SSE4.1 COST 1 OPERATION
FOR j := 0 to 3
 dst.dword[j] := SignExtend32(a.word[j])
ENDFOR
END
INSTRUCTION _mm_mul_epi32 PARAM a 128 SI32 PARAM b 128 SI32
RESULT dst 128 SI64 EXTENSION SSE4.1 COST 1 OPERATION
FOR j := 0 to 1
 i := j*64
 dst[i+63:i] := SignExtend64(a[i+31:i]) * SignExtend64(b[i+31:i])
ENDFOR
END
INSTRUCTION _mm_cmpgt_epi32 PARAM a 128 SI32 PARAM b 128 SI32
RESULT dst 128 UI32 EXTENSION SSE2 COST 1 OPERATION
FOR j := 0 to 3
 i := j*32
 dst[i+31:i] := (a[i+31:i] > b[i+31:i]) ? 0xFFFFFFFF : 0
ENDFOR
END
INSTRUCTION _mm_and_si128 PARAM a 128 M128 PARAM b 128 M128
RESULT dst 128 M128 EXTENSION SSE2 COST 1 OPERATION
FOR j := 0 to 1
 dst.qword[j] := a.qword[j] AND b.qword[j]
ENDFOR
END
INSTRUCTION _mm_blendv_epi8 PARAM a 128 UI8 PARAM b 128 UI8 PARAM mask 128 UI8
RESULT dst 128 UI8 EXTENSION SSE4.1 COST 2 OPERATION
FOR j := 0 to 15
 i := j*8
 IF mask[i+7]
  dst[i+7:i] := b[i+7:i]
 ELSE
  dst[i+7:i] := a[i+7:i]
 FI
ENDFOR
END
INSTRUCTION _mm_slli_epi32 PARAM a 128 UI32 IMM imm8 0 to 255
RESULT dst 128 UI32 EXTENSION SSE2 COST 1 OPERATION
FOR j := 0 to 3
 i := j*32
 IF imm8[7:0] > 31
  dst[i+31:i] := 0
 ELSE
  dst[i+31:i] := ZeroExtend32(a[i+31:i] << imm8[7:0])
 FI
ENDFOR
END
INSTRUCTION _mm_shuffle_epi32 PARAM a 128 UI32 IMM imm8 0 to 255
RESULT dst 128 UI32 EXTENSION SSE2 COST 1 OPERATION
DEFINE SELECT4(src, control) {
 CASE(control[1:0]) OF
 0: tmp[31:0] := src[31:0]
 1: tmp[31:0] := src[63:32]
 2: tmp[31:0] := src[95:64]
 3: tmp[31:0] := src[127:96]
 ESAC
 RETURN tmp[31:0]
}
dst[31:0] := SELECT4(a[127:0], imm8[1:0])
dst[63:32] := SELECT4(a[127:0], imm8[3:2])
dst[95:64] := SELECT4(a[127:0], imm8[5:4])
dst[127:96] := SELECT4(a[127:0], imm8[7:6])
END
INSTRUCTION _mm_dpbusd_epi32 PARAM src 128 SI32 PARAM a 128 UI8 PARAM b 128 SI8
RESULT dst 128 SI32 EXTENSION AVX_VNNI COST 1 OPERATION
FOR j := 0 to 3
 tmp1.word := Signed(ZeroExtend16(a.byte[4*j]) * SignExtend16(b.byte[4*j]))
 tmp2.word := Signed(ZeroExtend16(a.byte[4*j+1]) * SignExtend16(b.byte[4*j+1]))
 tmp3.word := Signed(ZeroExtend16(a.byte[4*j+2]) * SignExtend16(b.byte[4*j+2]))
 tmp4.word := Signed(ZeroExtend16(a.byte[4*j+3]) * SignExtend16(b.byte[4*j+3]))
 dst.dword[j] := src.dword[j] + tmp1 + tmp2 + tmp3 + tmp4
ENDFOR
dst[MAX:128] := 0
END
INSTRUCTION _mm_dpbusds_epi32 PARAM src 128 SI32 PARAM a 128 UI8 PARAM b 128 SI8
RESULT dst 128 SI32 EXTENSION AVX_VNNI COST 1 OPERATION
FOR j := 0 to 3
 tmp1.word := Signed(ZeroExtend16(a.byte[4*j]) * SignExtend16(b.byte[4*j]))
 tmp2.word := Signed(ZeroExtend16(a.byte[4*j+1]) * SignExtend16(b.byte[4*j+1]))
 tmp3.word := Signed(ZeroExtend16(a.byte[4*j+2]) * SignExtend16(b.byte[4*j+2]))
 tmp4.word := Signed(ZeroExtend16(a.byte[4*j+3]) * SignExtend16(b.byte[4*j+3]))
 dst.dword[j] := Saturate32(src.dword[j] + tmp1 + tmp2 + tmp3 + tmp4)
ENDFOR
dst[MAX:128] := 0
END";
