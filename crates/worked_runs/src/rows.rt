//! Runs of one script on one small page each.
use crate::tested::{Row, first_wrong};
use extract_call::Status;
use std::test::Fail;

/// Steps behind steps: repeats stay, a selector looks beside the rows that it is given, and a group without a match is empty.
const CHAINED: [Row; 4] = [
    (
        "x: css('div').css('b::text').getall()",
        b"<div><div><b>x</b></div></div>",
        Status::Done,
        "{\"fields\":[{\"name\":\"x\",\"value\":[\"x\",\"x\"]}],\"page\":\"a.html\"}\n",
    ),
    (
        "x: css('p').css('p + i::text').getall()",
        b"<div><p>1</p><i>2</i></div>",
        Status::Done,
        "{\"fields\":[{\"name\":\"x\",\"value\":[\"2\"]}],\"page\":\"a.html\"}\n",
    ),
    (
        "r: css('p::text').re('(\\d+)-(x)?').getall()",
        b"<p>1-x 2-</p>",
        Status::Done,
        "{\"fields\":[{\"name\":\"r\",\"value\":[\"1\",\"x\",\"2\",\"\"]}],\"page\":\"a.html\"}\n",
    ),
    (
        "f: css('p.a').getall()",
        b"<p class=\"a&#12;b\">x</p>",
        Status::Done,
        "{\"fields\":[{\"name\":\"f\",\"value\":[]}],\"page\":\"a.html\"}\n",
    ),
];

#[test]
fn chains(rt: HostRuntime) -> Result<(), Fail> {
    assert_eq!(rt; first_wrong(rt.alloc(), &CHAINED[..])?, None);
    Ok(())
}

/// Numbers and places of characters.
const NUMBERS: [Row; 4] = [
    (
        "v: xpath(\"number('x')\").get()",
        b"<p>",
        Status::Done,
        "{\"fields\":[{\"name\":\"v\",\"value\":\"NaN\"}],\"page\":\"a.html\"}\n",
    ),
    (
        "v: xpath('5 mod 0').get()",
        b"<p>",
        Status::Done,
        "{\"fields\":[{\"name\":\"v\",\"value\":\"NaN\"}],\"page\":\"a.html\"}\n",
    ),
    (
        "v: xpath('-5 mod 2').get()",
        b"<p>",
        Status::Done,
        "{\"fields\":[{\"name\":\"v\",\"value\":\"-1\"}],\"page\":\"a.html\"}\n",
    ),
    (
        "v: xpath(\"substring('12345', 0, 3)\").get()",
        b"<p>",
        Status::Done,
        "{\"fields\":[{\"name\":\"v\",\"value\":\"12\"}],\"page\":\"a.html\"}\n",
    ),
];

#[test]
fn numbers(rt: HostRuntime) -> Result<(), Fail> {
    assert_eq!(rt; first_wrong(rt.alloc(), &NUMBERS[..])?, None);
    Ok(())
}

/// Axes, whose places are counted backwards on reverse axes, and elements that have one id.
const AXES: [Row; 4] = [
    (
        "v: xpath('name(//li/ancestor::*[1])').get()",
        b"<div><p>a</p><ul><li>b</li></ul></div>",
        Status::Done,
        "{\"fields\":[{\"name\":\"v\",\"value\":\"ul\"}],\"page\":\"a.html\"}\n",
    ),
    (
        "v: xpath('//li/preceding::*[1]').getall()",
        b"<div><p>a</p><ul><li>b</li></ul></div>",
        Status::Done,
        "{\"fields\":[{\"name\":\"v\",\"value\":[\"<p>a</p>\"]}],\"page\":\"a.html\"}\n",
    ),
    (
        "v: xpath('id(\"a\")').xpath('string()').getall()",
        b"<div><p id=a>1</p><p id=a>2</p></div>",
        Status::Done,
        "{\"fields\":[{\"name\":\"v\",\"value\":[\"1\"]}],\"page\":\"a.html\"}\n",
    ),
    (
        "v: css('#a::text').getall()",
        b"<div><p id=a>1</p><p id=a>2</p></div>",
        Status::Done,
        "{\"fields\":[{\"name\":\"v\",\"value\":[\"1\",\"2\"]}],\"page\":\"a.html\"}\n",
    ),
];

#[test]
fn axes_and_ids(rt: HostRuntime) -> Result<(), Fail> {
    assert_eq!(rt; first_wrong(rt.alloc(), &AXES[..])?, None);
    Ok(())
}

/// Siblings, references in values, and why fields are refused.
const SIBLINGS: [Row; 4] = [
    (
        "v: css('h1 + p::text').getall()",
        b"<div><h1>a</h1>t<!--c--><p>b</p><p>d</p></div>",
        Status::Done,
        "{\"fields\":[{\"name\":\"v\",\"value\":[\"b\"]}],\"page\":\"a.html\"}\n",
    ),
    (
        "v: css('p:only-child::text').get()",
        b"<p>x</p>",
        Status::Done,
        "{\"fields\":[{\"name\":\"v\",\"value\":\"x\"}],\"page\":\"a.html\"}\n",
    ),
    (
        "v: xpath('//@title').get()",
        b"<p title=\"&lt;&euro;&#x80;&alpha;&#0;&amp\">&copy;</p>",
        Status::Done,
        "{\"fields\":[{\"name\":\"v\",\"value\":\"<\u{20ac}\u{20ac}&alpha;\u{fffd}&amp\"}],\"page\":\"a.html\"}\n",
    ),
    (
        "1x: css('a').get(); y: css('a'); z: re('a').css('b').get(); w: re('(').getall()",
        b"<a>x</a>",
        Status::Refused,
        "{\"fields\":[{\"name\":\"\",\"refused\":\"field.Name\"},{\"name\":\"y\",\"refused\":\"field.Chain\"},{\"name\":\"z\",\"refused\":\"field.Order\"},{\"name\":\"w\",\"refused\":\"re.Pattern\"}],\"page\":\"a.html\"}\n",
    ),
];

#[test]
fn siblings_and_reasons(rt: HostRuntime) -> Result<(), Fail> {
    assert_eq!(rt; first_wrong(rt.alloc(), &SIBLINGS[..])?, None);
    Ok(())
}
