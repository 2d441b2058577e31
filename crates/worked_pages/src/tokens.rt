//! The tokens of a page, its attributes, and its first lexical fault.
use html_lexer::{Attrs, Lexer, Token, lexical_fault};
use std::test::Fail;
use text_base::{PageFault, PageReason};

#[test]
fn reads_tokens(rt: HostRuntime) -> Result<(), Fail> {
    let page =
        "<!DOCTYPE html><P id=a title='b c' hidden />x&amp;<!--d--></p ><?e><script>f</g></SCRIPT>";
    let mut lexer = Lexer::new(page);
    for _ in 0..9 {
        match lexer.next() {
            Ok(Some(Token::Doctype { from, to })) => assert!(rt; from == 0 && to == 15),
            Ok(
                Some(
                    Token::Start {
                        name,
                        attrs,
                        slash,
                        ..
                    },
                ),
            ) => {
                assert_eq!(rt; slash, name == "P");
                assert_eq!(rt; attrs == "", name == "script");
            }
            Ok(Some(Token::Text { raw, refs, .. })) => assert_eq!(rt; raw == "x&amp;", refs),
            Ok(Some(Token::Comment { text, .. })) => assert!(rt; text == "d" || text == "?e"),
            Ok(Some(Token::End { name, .. })) => assert!(rt; name == "p" || name == "SCRIPT"),
            _ => assert!(rt; false),
        }
    }
    assert!(rt; matches!(lexer.next(), Ok(None)));
    Ok(())
}

#[test]
fn reads_attributes(rt: HostRuntime) -> Result<(), Fail> {
    let mut lexer = Lexer::new("<p ID = a/ title=\"b 'c\"x/y= >");
    match lexer.next() {
        Ok(Some(Token::Start { attrs, .. })) => {
            let mut list = Attrs::new(attrs);
            let rows = [("ID", "a/"), ("title", "b 'c"), ("x", ""), ("y", "")];
            for row in rows {
                assert_eq!(rt; list.next(), Some(row));
            }
            assert_eq!(rt; list.next(), None);
            assert_eq!(rt; list.next(), None);
        }
        _ => assert!(rt; false),
    }
    Ok(())
}

#[test]
fn refuses_pages(rt: HostRuntime) -> Result<(), Fail> {
    let rows: [(&str, PageReason, usize); 9] = [
        ("<p><a hre", PageReason::BadTag, 3),
        ("<p =\"x\">", PageReason::BadAttribute, 0),
        ("<p><!-- x", PageReason::BadComment, 3),
        ("<p><!--x--!>-->", PageReason::BadComment, 3),
        ("<p><![CDATA[x]]></p>", PageReason::BadMarkup, 3),
        ("<p><?x", PageReason::BadMarkup, 3),
        ("a</ p>", PageReason::BadTag, 1),
        ("<Title/>", PageReason::BadTag, 0),
        ("<plaintext>", PageReason::BadTag, 0),
    ];
    for (page, reason, at) in rows {
        assert_eq!(rt;
            lexical_fault(page),
            Some(PageFault { reason, at }),
            "page {page}"
        );
    }
    assert_eq!(rt; lexical_fault("<title>a<b></title><textarea>"), None);
    Ok(())
}
