//! The tokens of an XPath text.
use std::test::Fail;
use text_base::XPathFault;
use xpath_lexer::{XKind, xpath_tokens};

#[test]
fn reads_tokens(rt: HostRuntime) -> Result<(), Fail> {
    let alloc = rt.alloc();
    let tokens = xpath_tokens(alloc, "//é:*[ .5!='a\"b' ]$a:b.. a::b-c<=1. .").expect(
        &rt, "tokens",
    );
    let rows = [
        (XKind::DoubleSlash, 0, 2, "//"),
        (XKind::Prefixed, 2, 6, "é:*"),
        (XKind::OpenSquare, 6, 7, "["),
        (XKind::Number, 8, 10, ".5"),
        (XKind::Unequal, 10, 12, "!="),
        (XKind::Literal, 12, 17, "a\"b"),
        (XKind::CloseSquare, 18, 19, "]"),
        (XKind::Variable, 19, 25, "$a:b.."),
        (XKind::Name, 26, 27, "a"),
        (XKind::DoubleColon, 27, 29, "::"),
        (XKind::Name, 29, 32, "b-c"),
        (XKind::LessEqual, 32, 34, "<="),
        (XKind::Number, 34, 36, "1."),
        (XKind::Dot, 37, 38, "."),
    ];
    let tokens = tokens.as_slice();
    assert_eq!(rt; tokens.len(), rows.len());
    for (token, (kind, from, to, value)) in tokens.iter().zip(rows) {
        assert_eq!(rt; (token.kind, token.from, token.to), (kind, from, to));
        assert_eq!(rt; token.value.as_str(), value);
    }
    for text in ["a # b", "$a:*", "'a", "a ! b", "$1"] {
        assert_eq!(rt;
            xpath_tokens(alloc, text).err(),
            Some(XPathFault::Text),
            "{text}"
        );
    }
    Ok(())
}
