// Tokens of texts that stand for many.
use lb_tok::{Content, Kind, ReadFault, tokens};
use std::test::Fail;

#[test]
fn texts_have_their_tokens(rt: HostRuntime) -> Result<(), Fail> {
    // The text, the number of its tokens, and the byte that begins none.
    let cases: [(&str, usize, Option<u32>); 24] = [
        ("", 0, None),
        (" \t\r\n-- a comment", 0, None),
        ("SELECT A--1\n, B FROM T", 6, None),
        ("1A", 2, None),
        ("1.5", 3, None),
        ("a_1 _", 1, Some(4)),
        ("<><=>=!=<>=", 6, None),
        ("< >", 2, None),
        ("A!B", 1, Some(1)),
        ("A|B", 1, Some(1)),
        ("A;", 1, Some(1)),
        ("A @", 1, Some(2)),
        ("A\u{c}B", 1, Some(1)),
        ("é", 0, Some(0)),
        ("'é''s' X", 2, None),
        ("A 'x", 1, Some(2)),
        ("A 'x''", 1, Some(2)),
        ("''''", 1, None),
        ("9223372036854775808", 1, None),
        ("9223372036854775809", 0, Some(0)),
        ("00000000000000000000000000000000001", 1, None),
        ("--", 0, None),
        ("- - -", 3, None),
        ("(),.=+*||[]{}", 12, None),
    ];
    for (text, count, stop) in cases {
        let found = match tokens(rt.alloc(), text.as_bytes()) {
            Ok(found) => found,
            Err(_) => return Err(Fail::from("not read")),
        };
        assert_eq!(rt; found.tokens.len(), count, "{text}");
        assert_eq!(rt; found.stop, stop, "{text}");
        assert_eq!(rt; found.spans.len(), count, "{text}");
    }
    Ok(())
}

#[test]
fn names_have_at_most_64_bytes(rt: HostRuntime) -> Result<(), Fail> {
    for (bytes, count) in [(64usize, 1usize), (65, 0)] {
        let mut text = String::new(rt.alloc());
        for _ in 0..bytes {
            text.push('n')?;
        }
        match tokens(rt.alloc(), text.as_str().as_bytes()) {
            Ok(found) => assert_eq!(rt; found.tokens.len(), count),
            Err(_) => return Err(Fail::from("not read")),
        }
    }
    Ok(())
}

#[test]
fn tokens_say_what_they_are(rt: HostRuntime) -> Result<(), Fail> {
    let found = match tokens(rt.alloc(), b"select Count 'it''s' 007") {
        Ok(found) => found,
        Err(_) => return Err(Fail::from("not read")),
    };
    let kinds = [Kind::Select, Kind::Count, Kind::Text, Kind::Numeral];
    let mut place = 0;
    for token in found.tokens.as_slice() {
        assert!(rt; place < kinds.len());
        assert_eq!(rt; token.kind, kinds[place]);
        match &token.content {
            Content::Nothing => assert_eq!(rt; place, 0),
            Content::Word(name) => assert_eq!(rt; name.as_str(), "COUNT"),
            Content::Text(text) => assert_eq!(rt; text.as_str(), "it's"),
            Content::Number(value) => assert_eq!(rt; *value, 7),
        }
        place += 1;
    }
    assert_eq!(rt; place, 4);
    Ok(())
}

#[test]
fn texts_that_are_no_text(rt: HostRuntime) -> Result<(), Fail> {
    match tokens(rt.alloc(), b"SELECT \xff FROM T") {
        Ok(_) => return Err(Fail::from("read")),
        Err(fault) => assert_eq!(rt; fault, ReadFault::Syntax(7)),
    }
    let mut long = Vec::new(rt.alloc());
    for _ in 0..4097 {
        long.push(b' ')?;
    }
    match tokens(rt.alloc(), long.as_slice()) {
        Ok(_) => return Err(Fail::from("read")),
        Err(fault) => assert_eq!(rt; fault, ReadFault::Syntax(4096)),
    }
    Ok(())
}
