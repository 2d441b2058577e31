//! The tokens of a selector.
use CssKind::*;
use css_lexer::{CssKind, css_tokens, one_list_or_fault};
use std::test::Fail;
use text_base::SelectorFault;

type Row = (
    &'static str,
    &'static [(CssKind, usize, usize, &'static str)],
);

const ROWS: [Row; 15] = [
    ("", &[]),
    (
        "*.:[]),+>|~-=",
        &[
            (Star, 0, 1, ""),
            (Dot, 1, 2, ""),
            (Colon, 2, 3, ""),
            (OpenSquare, 3, 4, ""),
            (CloseSquare, 4, 5, ""),
            (CloseRound, 5, 6, ""),
            (Comma, 6, 7, ""),
            (Plus, 7, 8, ""),
            (Greater, 8, 9, ""),
            (Bar, 9, 10, ""),
            (Tilde, 10, 11, ""),
            (Minus, 11, 12, ""),
            (Equal, 12, 13, ""),
        ],
    ),
    (
        "~=|=^=$=*=::",
        &[
            (WordMatch, 0, 2, ""),
            (DashMatch, 2, 4, ""),
            (PrefixMatch, 4, 6, ""),
            (SuffixMatch, 6, 8, ""),
            (PartMatch, 8, 10, ""),
            (DoubleColon, 10, 12, ""),
        ],
    ),
    (
        " \t\r\n\u{c}a-1(12",
        &[
            (Space, 0, 5, ""),
            (Function, 5, 9, "a-1"),
            (Digits, 9, 11, ""),
        ],
    ),
    ("--x", &[(Minus, 0, 1, ""), (Ident, 1, 3, "-x")]),
    ("#1a", &[(Hash, 0, 3, "1a")]),
    ("é\\é", &[(Ident, 0, 5, "éé")]),
    ("\\41 b\\000041b", &[(Ident, 0, 13, "AbAb")]),
    ("\\41\r\nb", &[(Ident, 0, 6, "Ab")]),
    (
        "\\0 \\D800 \\110000",
        &[(Ident, 0, 16, "\u{fffd}\u{fffd}\u{fffd}")],
    ),
    ("\\:\\\"x", &[(Ident, 0, 5, ":\"x")]),
    (
        "a/**/b/*/*/ ",
        &[(Ident, 0, 1, "a"), (Ident, 5, 6, "b"), (Space, 11, 12, "")],
    ),
    (
        "\"a'\\\nb\"'\\\r\nc\\\rd\\\u{c}e'",
        &[(Quoted, 0, 7, "a'b"), (Quoted, 7, 19, "cde")],
    ),
    ("'\\41  b'", &[(Quoted, 0, 8, "A b")]),
    (
        "-\\-a:not(",
        &[
            (Ident, 0, 4, "--a"),
            (Colon, 4, 5, ""),
            (Function, 5, 9, "not"),
        ],
    ),
];

#[test]
fn reads_tokens(rt: HostRuntime) -> Result<(), Fail> {
    for (text, want) in ROWS {
        let tokens = css_tokens(rt.alloc(), text).expect(&rt, "tokens");
        assert_eq!(rt; tokens.len(), want.len(), "of {text}");
        for (token, row) in tokens.as_slice().iter().zip(want) {
            let read = (token.kind, token.from, token.to);
            assert!(rt;
                read == (row.0, row.1, row.2) && token.value.is(row.3),
                "in {text}"
            );
        }
    }
    one_list_or_fault();
    Ok(())
}

#[test]
fn refuses(rt: HostRuntime) -> Result<(), Fail> {
    for text in [
        "a\"b", "a 'b\nc'", "a/* *", "a / b", "#", "a\\", "\\\n", "a{", "\"\\",
    ] {
        assert_eq!(rt;
            css_tokens(rt.alloc(), text).err(),
            Some(SelectorFault::Text),
            "at {text}"
        );
    }
    let mut long = String::new(rt.alloc());
    for _ in 0..16384 {
        long.push('a')?;
    }
    assert!(rt; css_tokens(rt.alloc(), &long).is_ok());
    long.push('a')?;
    assert_eq!(rt;
        css_tokens(rt.alloc(), &long).err(),
        Some(SelectorFault::Long)
    );
    Ok(())
}
