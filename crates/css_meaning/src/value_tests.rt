use crate::attribute_values::{is_language, value_passes};
use crate::names::is_named;
use css_selectors::{Dialect, Op};

#[test]
fn compares_values(rt: HostRuntime) {
    let rows = [
        (Op::Exists, "", "", true),
        (Op::Equals, "é", "é", true),
        (Op::Equals, "é", "e", false),
        (Op::Word, " a\tbé\u{c}c ", "bé", true),
        (Op::Word, "a bé", "b", false),
        (Op::Word, " ", "", false),
        (Op::Dash, "en", "en", true),
        (Op::Dash, "en-GB", "en", true),
        (Op::Dash, "eng", "en", false),
        (Op::Prefix, "abc", "ab", true),
        (Op::Prefix, "abc", "", false),
        (Op::Suffix, "abc", "bc", true),
        (Op::Suffix, "c", "bc", false),
        (Op::Substring, "abcd", "bc", true),
        (Op::Substring, "abcd", "", false),
    ];
    for (op, value, wanted, want) in rows {
        assert_eq!(rt; value_passes(op, value, wanted), want, "{op:?} of {value}");
    }
    for (value, wanted, want) in [
        ("EN-gb", "en", true),
        ("eng", "EN", false),
        ("e", "en", false),
    ] {
        assert_eq!(rt; is_language(value, wanted), want, "{value}");
    }
    assert!(rt; is_named(Dialect::Html, "DIV", "div") && !is_named(Dialect::Generic, "DIV", "div"));
}
