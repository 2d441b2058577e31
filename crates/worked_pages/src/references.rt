//! Character references.
use char_refs::{decode_refs, reference};
use std::test::Fail;

#[test]
fn decodes_references(rt: HostRuntime) -> Result<(), Fail> {
    let alloc = rt.alloc();
    let rows: [(&str, &str); 4] = [
        ("&lt;", "<"),
        ("&lt;&euro;&#x80;&alpha;&#0;&amp", "<€€&alpha;\u{fffd}&amp"),
        ("a&&#38;#38;&#;&#x;&#XfF;", "a&&#38;&#;&#x;ÿ"),
        (
            "&#xd800;&#99999999999999999999;&#x110000;&#x10FFFF;",
            "\u{fffd}\u{fffd}\u{fffd}\u{10ffff}",
        ),
    ];
    for (raw, want) in rows {
        let text = decode_refs(alloc, raw).expect(&rt, "memory");
        assert_eq!(rt; text.as_str(), want);
    }
    assert_eq!(rt; reference("x&szlig;", 1), Some(('ß', 7)));
    assert_eq!(rt; reference("x&szlig;", 0), None);
    Ok(())
}
