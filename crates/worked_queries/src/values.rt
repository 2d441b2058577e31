//! Numbers and comparisons of XPath.
use std::test::Fail;
use xpath_values::{
    Atom, Compare, XNum, add, compare_atoms, mul, neg, num_text, rem, sub, to_number,
};

#[test]
fn reads_and_writes_numbers(rt: HostRuntime) -> Result<(), Fail> {
    let alloc = rt.alloc();
    let rows = [
        (" -12\n", "-12"),
        ("007", "7"),
        ("9007199254740991", "9007199254740991"),
        ("-9007199254740992", "NaN"),
        ("99999999999999999999999", "NaN"),
        ("1.0", "NaN"),
        ("+1", "NaN"),
        ("- 1", "NaN"),
        ("-", "NaN"),
        ("x", "NaN"),
        ("1 2", "NaN"),
        ("", "NaN"),
    ];
    for (text, want) in rows {
        let number = num_text(alloc, to_number(text)).expect(&rt, "memory");
        assert_eq!(rt; number.as_str(), want, "{text}");
    }
    Ok(())
}

#[test]
fn computes(rt: HostRuntime) {
    let most = XNum::Whole(9_007_199_254_740_991);
    assert_eq!(rt; add(most, XNum::Whole(1)), XNum::NaN);
    assert_eq!(rt; sub(neg(most), XNum::Whole(1)), XNum::NaN);
    assert_eq!(rt; mul(most, most), XNum::NaN);
    assert_eq!(rt; rem(XNum::Whole(-5), XNum::Whole(2)), XNum::Whole(-1));
    assert_eq!(rt; rem(XNum::Whole(5), XNum::Whole(0)), XNum::NaN);
}

#[test]
fn compares(rt: HostRuntime) {
    let x = Atom::Str("x");
    let rows = [
        (Compare::Equal, Atom::Bool(true), Atom::Str("false"), true),
        (
            Compare::Equal,
            Atom::Str(" 07"),
            Atom::Num(XNum::Whole(7)),
            true,
        ),
        (Compare::Equal, Atom::Str("07"), Atom::Str("7"), false),
        (Compare::Unequal, x, Atom::Num(XNum::Whole(1)), true),
        (Compare::LessEqual, x, x, false),
        (Compare::Less, Atom::Str("9"), Atom::Str("10"), true),
    ];
    for (op, a, b, want) in rows {
        assert_eq!(rt; compare_atoms(op, a, b), want, "{op:?}");
    }
}
