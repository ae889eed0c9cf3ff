//! The parts of tokens, and the values of numbers, characters and strings.

use al_base::{Kind, Place};
use al_lex::{
    LexFault, LexReason, Token, TokenKind as K, char_value, lex, next, number_kind, number_value,
};
use std::test::Fail;

fn token(kind: K, name: u32, from: u32, to: u32, line: u32, col: u32) -> Token {
    Token {
        kind,
        name,
        from,
        to,
        place: Place { line, col },
    }
}

#[test]
fn tokens_have_bytes_places_and_name_numbers(rt: HostRuntime) -> Result<(), Fail> {
    let tokens = lex(rt.alloc(), b"b a\n/*\n*/ b\tint\n")?;
    let expected = [
        token(K::Name, 0, 0, 1, 1, 1),
        token(K::Name, 1, 2, 3, 1, 3),
        token(K::Name, 0, 10, 11, 3, 4),
        token(K::Int, 0, 12, 15, 3, 6),
        token(K::End, 0, 16, 16, 4, 1),
    ];
    assert_eq!(rt; tokens.as_slice(), expected.as_slice());
    assert_eq!(rt; tokens.len(), 5);
    assert_eq!(rt; tokens.bytes(0), b"b".as_slice());
    assert_eq!(rt; tokens.text().len(), 16);
    Ok(())
}

#[test]
fn the_next_token_is_past_blanks_and_comments(rt: HostRuntime) -> Result<(), Fail> {
    let text = b"a /* \n */ bc @";
    assert_eq!(rt; next(text, 1), Ok(token(K::Name, 0, 10, 12, 2, 5)));
    let fault = LexFault {
        reason: LexReason::BadChar,
        byte: 13,
    };
    assert_eq!(rt; next(text, 12), Err(fault));
    assert_eq!(rt; next(b"a ", 1), Ok(token(K::End, 0, 2, 2, 1, 3)));
    Ok(())
}

#[test]
fn numbers_and_constants_have_values(rt: HostRuntime) {
    assert_eq!(rt; number_value(b"0x10"), Some(16));
    assert_eq!(rt; number_value(b"017"), Some(15));
    assert_eq!(rt; number_value(b"18446744073709551615"), Some(u64::MAX));
    assert_eq!(rt; number_value(b"18446744073709551616"), None);
    assert_eq!(rt; number_kind(2147483647), Kind::Int);
    assert_eq!(rt; number_kind(2147483648), Kind::Uint);
    assert_eq!(rt; number_kind(4294967296), Kind::Lint);
    assert_eq!(rt; number_kind(9223372036854775808), Kind::Ulint);
    assert_eq!(rt; char_value(b"'a'"), 97);
    assert_eq!(rt; char_value(b"'\\n'"), 10);
    assert_eq!(rt; char_value(b"'\\''"), 39);
    assert_eq!(rt; char_value(b"'\\377'"), 255);
    assert_eq!(rt; char_value(b"'\\x4a'"), 74);
}
