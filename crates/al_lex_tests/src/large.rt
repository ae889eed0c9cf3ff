//! Large texts. bench/lex takes the time of these.

use al_lex::lex;
use std::test::Fail;

#[test]
fn one_comment_of_a_large_text_is_cut(rt: HostRuntime) -> Result<(), Fail> {
    let mut text = vec![in rt.alloc(); b'x'; 1 << 20]?;
    assert_eq!(rt; text.len(), 1 << 20);
    text[0] = b'/';
    text[1] = b'*';
    text[(1 << 20) - 2] = b'*';
    text[(1 << 20) - 1] = b'/';
    assert_eq!(rt; lex(rt.alloc(), &text)?.len(), 1);
    Ok(())
}

#[test]
fn one_string_of_a_large_text_is_cut(rt: HostRuntime) -> Result<(), Fail> {
    let mut text = vec![in rt.alloc(); b'x'; 1 << 20]?;
    assert_eq!(rt; text.len(), 1 << 20);
    text[0] = b'"';
    text[(1 << 20) - 1] = b'"';
    assert_eq!(rt; lex(rt.alloc(), &text)?.len(), 2);
    Ok(())
}

#[test]
fn many_names_of_a_large_text_is_cut(rt: HostRuntime) -> Result<(), Fail> {
    let mut text = Vec::new(rt.alloc());
    for _ in 0..500_000 {
        text.extend_from_slice(b"a ")?;
    }
    assert!(rt; text.len() <= 1 << 20);
    assert_eq!(rt; lex(rt.alloc(), &text)?.len(), 500_001);
    Ok(())
}
