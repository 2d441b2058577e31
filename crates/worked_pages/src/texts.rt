//! Texts: decoding, parts, words and white space.
use std::test::Fail;
use text_base::{
    ByteKind, NotSpace4, PageFault, PageReason, Space4, Space5, Txt, char_len, char_sub,
    decode_page, is_same, is_space4, is_space5, lower_ascii, plain_page, run_end, words_of,
};

#[test]
fn decodes_pages(rt: HostRuntime) -> Result<(), Fail> {
    let alloc = rt.alloc();
    let mark_and_lines: &[u8] = b"\xef\xbb\xbfa\r\nb\rc\r\r\nd";
    let page = decode_page(alloc, mark_and_lines).expect(&rt, "a text");
    assert_eq!(rt; page.as_str(), "a\nb\nc\n\nd");
    let faults: [(&[u8], PageReason, usize); 4] = [
        (b"ab\0", PageReason::Nul, 2),
        (b"a\xc3", PageReason::NotUtf8, 1),
        (b"\0\xff", PageReason::Nul, 0),
        (b"\xff\0", PageReason::NotUtf8, 0),
    ];
    for (bytes, reason, at) in faults {
        assert_eq!(rt;
            decode_page(alloc, bytes).err(),
            Some(PageFault { reason, at })
        );
    }
    Ok(())
}

#[test]
fn takes_plain_pages(rt: HostRuntime) -> Result<(), Fail> {
    let plain: [&[u8]; 3] = [b"", b"a\nb", "\u{e9}\u{20ac}".as_bytes()];
    for bytes in plain {
        assert!(rt; plain_page(bytes).is_some());
    }
    let others: [&[u8]; 5] = [b"a\rb", b"a\r\n", b"\xef\xbb\xbfa", b"a\0", b"a\xff"];
    for bytes in others {
        assert!(rt; plain_page(bytes).is_none());
    }
    assert!(rt; is_same("name", "name"));
    assert!(rt; !is_same("name", "nama"));
    assert!(rt; !is_same("", "n"));
    Ok(())
}

#[test]
fn takes_parts(rt: HostRuntime) -> Result<(), Fail> {
    assert_eq!(rt; char_len("aé€𝄞"), 4);
    let rows: [(i64, Option<i64>, &str); 8] = [
        (1, None, "aé€𝄞"),
        (2, Some(2), "é€"),
        (0, Some(3), "aé"),
        (-5, Some(7), "a"),
        (4, Some(1), "𝄞"),
        (5, None, ""),
        (i64::MAX, Some(i64::MAX), ""),
        (i64::MIN, Some(i64::MAX), ""),
    ];
    for (from, len, want) in rows {
        assert_eq!(rt; char_sub("aé€𝄞", from, len), want, "from {from}");
    }
    Ok(())
}

#[test]
fn reads_words(rt: HostRuntime) -> Result<(), Fail> {
    let alloc = rt.alloc();
    let words = words_of(alloc, " a\té\u{c}b\r\n c ").expect(&rt, "memory");
    let words = words.as_slice();
    assert_eq!(rt; words.len(), 3);
    for (word, want) in words.iter().zip(["a", "é\u{c}b", "c"]) {
        assert_eq!(rt; word.as_str(), want);
    }
    let lower = lower_ascii(alloc, "AzÉ").expect(&rt, "memory");
    let lower = Txt::from_string(lower);
    assert!(rt; lower.is("azÉ") && !lower.is("az"));
    let copy = Txt::of(alloc, "azÉ").expect(&rt, "memory");
    assert!(rt; copy.is(lower.as_str()));
    Ok(())
}

#[test]
fn knows_white_space(rt: HostRuntime) -> Result<(), Fail> {
    assert!(rt;
        is_space5('\u{c}') && !is_space4('\u{c}') && is_space4('\n') && !is_space5('\u{a0}')
    );
    assert_eq!(rt; run_end(" \u{c}a", &Space5, 0), 2);
    assert_eq!(rt; run_end(" \u{c}a", &Space4, 0), 1);
    assert!(rt; NotSpace4.has(b'a'));
    Ok(())
}
