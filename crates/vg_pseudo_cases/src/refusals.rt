//! Texts that are no operations: of each the number of its first fault, and the place, which an `@`
//! marks.

use crate::operation_texts::judge_all;
use std::test::Fail;

#[test]
fn what_is_no_token(rt: HostRuntime) -> Result<(), Fail> {
    judge_all(
        &rt,
        rt.alloc(),
        1,
        "
        @\u{80}
        x := 1 @\0
        x := a // a comment @\x7F
        x := @170141183460469231731687303715884105728 END
        x := a[@0x80000000000000000000000000000000] END
        x := @a2345678901234567890123456789012345678901234567890123456789012345 END
        x@\u{80} := 1 END
        x[@\u{80}
        x[MAX@\u{80}
        IF a ELSE@\u{80}
        x := a + f(1, 2@\u{80}
        DEFINE f(a[@170141183460469231731687303715884105728:0]) { RETURN a } END
        CASE a OF @170141183460469231731687303715884105728: ESAC END
        ",
    )
}

#[test]
fn expressions_that_the_language_has_not(rt: HostRuntime) -> Result<(), Fail> {
    judge_all(
        &rt,
        rt.alloc(),
        2,
        "
        x := @END
        x := a == b @== c END
        x := a < b + 1 @>= c END
        x := 1 @(b) END
        x := (a @END
        x := (a @] END
        x := a ? b @END
        x := a ? b : @END
        x := a[b @? c : d] END
        x := a[b:c @? d : e] END
        x := a.word[b @? c : d] END
        x := a[1 @END
        x := a[1:2@:3] END
        x := a[@] END
        x := a[MAX@:0] END
        x := a[MAX@] END
        x := a.@bit END
        x := a.@8 END
        x := a.word[1@:0] END
        x := MAX @END
        x := ABS @a END
        x := Signed@[1] END
        x := NOT @* a END
        x := a + @/ b END
        x := @to END
        x := a @% b END
        x := f(@) END
        x := f(a,@) END
        x := f(a @b) END
        x := @OF END
        ",
    )
}

#[test]
fn numbers_of_arguments(rt: HostRuntime) -> Result<(), Fail> {
    judge_all(
        &rt,
        rt.alloc(),
        2,
        "
        x := @ABS(a, b) END
        x := 1 + @MIN(a) END
        x := @MAX(a, b, c) END
        x := @SignExtend8(a, b) END
        x := @ABS(a, b) \u{80}
        x := ABS(a, b @c) END
        DEFINE f(a) { RETURN a } x := @f(1, 2) END
        DEFINE f(a, b) { RETURN a } x := 1 * @f(1) END
        DEFINE f(a) { RETURN a } DEFINE f(a, b) { RETURN @f(1, 2) } END
        DEFINE f(a) { RETURN a } DEFINE f(a, b) { RETURN f(1) } x := @f(1) END
        DEFINE f(a) { RETURN a } x := f(1, 2 @END
        ",
    )
}

#[test]
fn statements_that_the_language_has_not(rt: HostRuntime) -> Result<(), Fail> {
    judge_all(
        &rt,
        rt.alloc(),
        2,
        "
        @
        x@
        x @= 1 END
        x := 1 @
        x := 1 @:= 2 END
        @1 := 2 END
        @MAX := 2 END
        @RETURN 1 END
        @ELSE x := 1 END
        x@(1) := 2 END
        x[1 + @:2] := 3 END
        x[MAX:1@:2] := 3 END
        x[MAX@] := 3 END
        x.word[MAX@:1] := 3 END
        x.@nibble := 3 END
        FOR @1 := 0 to 3 ENDFOR END
        FOR @OF := 0 to 3 ENDFOR END
        FOR j @= 0 to 3 ENDFOR END
        FOR j := 0 @TO 3 ENDFOR END
        FOR j := 0 to 3 x := 1 @END
        FOR j := 0 to 3 x := 1 @FI END
        IF @FI END
        IF a x := 1 @END
        IF a x := 1 ELSE x := 2 @ELSE x := 3 FI END
        IF a x := 1 ELSE IF b x := 2 FI @FI END
        IF a x := 1 ELSE x := 2 IF b FI @END
        CASE a @0: ESAC END
        CASE a OF @x := 1 ESAC END
        CASE a OF 0 @x := 1 ESAC END
        CASE a OF 0: x := 1 @END
        CASE a OF 0: x := 1 @ELSE ESAC END
        x := 1 @DEFINE f(a) { RETURN a } END
        ",
    )
}

#[test]
fn defines_that_the_language_has_not(rt: HostRuntime) -> Result<(), Fail> {
    judge_all(
        &rt,
        rt.alloc(),
        2,
        "
        DEFINE @(a) { RETURN a } END
        DEFINE @MAX(a) { RETURN a } END
        DEFINE f(@) { RETURN 1 } END
        DEFINE f(a @b) { RETURN 1 } END
        DEFINE f(a,@) { RETURN 1 } END
        DEFINE f(@1) { RETURN 1 } END
        DEFINE f(@to) { RETURN 1 } END
        DEFINE f(a[7:@1]) { RETURN 1 } END
        DEFINE f(a[7@]) { RETURN 1 } END
        DEFINE f(a[@b:0]) { RETURN 1 } END
        DEFINE f(a) @RETURN a END
        DEFINE f(a) { @} END
        DEFINE f(a) { RETURN @} END
        DEFINE f(a) { RETURN a @x := 1 } END
        DEFINE f(a) { RETURN a @END
        DEFINE f(a) { @DEFINE g(b) { RETURN b } RETURN a } END
        DEFINE f(a) { x := 1 @END RETURN a } END
        ",
    )
}
