//! Texts and the tokens that they are cut into.

use std::process::Abort;
use std::test::Fail;
use vg_text::{Lexer, Place, Token, TokenKind, decimal};

const TEXT: &[u8] = b"// note\nname1 007 0x1F;\r\n a<<=b 5i16 0x _ // end";

/// A name of 64 bytes, the longest, and a comma.
const NAME_OF_64: &[u8] = b"a23456789012345678901234567890123456789012345678901234567890abcd,";

/// A name of 65 bytes in parentheses.
const NAME_OF_65: &[u8] = b"(a23456789012345678901234567890123456789012345678901234567890abcde)";

/// 2^127 - 1.
const LARGEST: &[u8] = b"170141183460469231731687303715884105727";

/// 2^127 - 1 in hexadecimal digits.
const LARGEST_HEXADECIMAL: &[u8] = b"0x7fffffffffffffffffffffffffffffff";

/// A space and 2^127.
const TOO_LARGE: &[u8] = b" 170141183460469231731687303715884105728";

/// 2^127 in hexadecimal digits.
const TOO_LARGE_HEXADECIMAL: &[u8] = b"0x80000000000000000000000000000000";

/// 10 after many zeros.
const ZEROS_IN_FRONT: &[u8] = b"0x0000000000000000000000000000000000000a";

/// 2^128 - 1.
const MOST: &[u8] = b"340282366920938463463374607431768211455";

/// 2^128.
const FAR_TOO_LARGE: &[u8] = b"340282366920938463463374607431768211456";

/// The kind of tokens that has this name.
fn kind_of(word: &str) -> TokenKind {
    match word {
        "Name" => TokenKind::Name,
        "Number" => TokenKind::Number,
        "Sign" => TokenKind::Sign,
        _ => TokenKind::End,
    }
}

/// The token that a row tells by its kind, the bytes between which it stands, its line and its column.
fn token_of(row: &str) -> Result<Token, Fail> {
    let mut words = row.split_whitespace();
    let kind = kind_of(words.next().unwrap_or(""));
    let start = words.next().unwrap_or("").parse::<usize>()?;
    let end = words.next().unwrap_or("").parse::<usize>()?;
    let line = words.next().unwrap_or("").parse::<u32>()?;
    let column = words.next().unwrap_or("").parse::<u32>()?;
    Ok(Token {
        kind,
        start,
        end,
        place: Place { line, column },
    })
}

#[test]
fn tokens_stand_at_their_bytes_and_places(rt: HostRuntime) -> Result<(), Fail> {
    let mut lexer = Lexer::new(TEXT);
    let rows = "
        Name 8 13 2 1
        Number 14 17 2 7
        Number 18 22 2 11
        Sign 22 23 2 15
        Name 26 27 3 2
        Sign 27 29 3 3
        Sign 29 30 3 5
        Name 30 31 3 6
        Number 32 33 3 8
        Name 33 36 3 9
        Number 37 38 3 13
        Name 38 39 3 14
        Name 40 41 3 16
        End 48 48 3 24
        End 48 48 3 24
    ";
    for row in rows.trim().lines() {
        let token = token_of(row)?;
        assert!(rt; lexer.next() == Ok(token), "{row}");
    }
    Ok(())
}

/// Asserts that the next word of a text is this sign, and goes after it.
fn expect_word(rt: &impl Abort, lexer: &mut Lexer, sign: &str) -> Result<(), Fail> {
    let Ok((word, rest)) = lexer.word() else {
        return Err("a word is missing".into());
    };
    assert!(rt;
        word.bytes == sign.as_bytes() && word.is_end == sign.is_empty(),
        "{sign}"
    );
    *lexer = rest;
    Ok(())
}

#[test]
fn signs_of_two_bytes_are_one_token(rt: HostRuntime) -> Result<(), Fail> {
    let mut lexer = Lexer::new(b":= == != <= >= << >> <> =! / :");
    for sign in ":= == != <= >= << >> < > = ! / :".split(' ') {
        expect_word(&rt, &mut lexer, sign)?;
    }
    expect_word(&rt, &mut lexer, "")
}

/// Asserts that a text without a token ends in this line and column, as a word and as a token,
/// however often it is asked.
fn expect_end(rt: &impl Abort, text: &[u8], line: u32, column: u32) {
    assert!(rt; text.len() <= 1000);
    let place = Place { line, column };
    assert!(rt;
        ends_at(Lexer::new(text), place),
        "line {line} column {column}"
    );
    let token = Token {
        kind: TokenKind::End,
        start: text.len(),
        end: text.len(),
        place,
    };
    let (first, again) = answers_behind(rt, text, 0);
    assert!(rt;
        first == Ok(token) && again == Ok(token),
        "line {line} column {column}"
    );
}

/// Whether the next word and the one after it are the end, at this place.
fn ends_at(lexer: Lexer, place: Place) -> bool {
    let Ok((word, rest)) = lexer.word() else {
        return false;
    };
    let Ok((again, _)) = rest.word() else {
        return false;
    };
    word.is_end && again.is_end && word.place == place && again.place == place
}

#[test]
fn the_end_stands_behind_the_last_byte_of_its_line(rt: HostRuntime) {
    expect_end(&rt, b"", 1, 1);
    expect_end(&rt, b" ", 1, 2);
    expect_end(&rt, b"\n", 1, 2);
    expect_end(&rt, b" \n\n", 2, 2);
    expect_end(&rt, b"// a\r\n", 1, 7);
    expect_end(&rt, b"\n //", 2, 4);
}

/// The answer after so many tokens, and the one after that.
fn answers_behind(
    rt: &impl Abort,
    text: &[u8],
    count: u32,
) -> (Result<Token, Place>, Result<Token, Place>) {
    assert!(rt; text.len() <= 1000);
    let mut lexer = Lexer::new(text);
    for _ in 0..count {
        assert!(rt; lexer.next().is_ok());
    }
    (lexer.next(), lexer.next())
}

/// Asserts that after so many tokens there is none at this place, however often it is asked.
fn expect_fault(rt: &impl Abort, text: &[u8], count: u32, line: u32, column: u32) {
    let place = Place { line, column };
    let (answer, again) = answers_behind(rt, text, count);
    assert!(rt;
        answer == Err(place) && again == Err(place),
        "line {line} column {column}"
    );
}

#[test]
fn what_is_no_token_is_a_fault_for_ever(rt: HostRuntime) {
    expect_fault(&rt, b"\x80", 0, 1, 1);
    expect_fault(&rt, b"\x00", 0, 1, 1);
    expect_fault(&rt, b"\x7F", 0, 1, 1);
    expect_fault(&rt, b"a\n \xFF", 1, 2, 2);
    expect_fault(&rt, b"a // \x80", 1, 1, 6);
    expect_fault(&rt, b"a //\x0B b", 1, 1, 5);
    expect_fault(&rt, NAME_OF_65, 1, 1, 2);
    expect_fault(&rt, TOO_LARGE, 0, 1, 2);
    expect_fault(&rt, FAR_TOO_LARGE, 0, 1, 1);
    expect_fault(&rt, TOO_LARGE_HEXADECIMAL, 0, 1, 1);
}

/// Whether a text begins with a token of a kind that ends after so many bytes.
fn begins_with(rt: &impl Abort, text: &[u8], kind: TokenKind, end: usize) -> bool {
    let token = Token {
        kind,
        start: 0,
        end,
        place: Place { line: 1, column: 1 },
    };
    answers_behind(rt, text, 0).0 == Ok(token)
}

#[test]
fn the_longest_name_and_the_largest_numbers(rt: HostRuntime) {
    assert!(rt; begins_with(&rt, NAME_OF_64, TokenKind::Name, 64));
    assert!(rt; begins_with(&rt, LARGEST, TokenKind::Number, 39));
    assert!(rt; begins_with(&rt, LARGEST_HEXADECIMAL, TokenKind::Number, 34));
    assert!(rt; begins_with(&rt, ZEROS_IN_FRONT, TokenKind::Number, 40));
}

#[test]
fn decimal_numbers(rt: HostRuntime) {
    assert!(rt; decimal(b"0") == Some(0) && decimal(b"007") == Some(7));
    assert!(rt; decimal(b"").is_none() && decimal(b"1a").is_none());
    assert!(rt; decimal(b"0x1").is_none() && decimal(b"-1").is_none());
    assert!(rt; decimal(MOST) == Some(u128::MAX));
    assert!(rt; decimal(FAR_TOO_LARGE).is_none());
}
