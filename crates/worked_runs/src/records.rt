//! Runs of scripts with blocks of records.
use crate::tested::{Row, first_wrong, is_line};
use extract_call::Status;
use std::alloc::Global;
use std::test::Fail;
use text_base::NoMemory;

const PAGE: &[u8] = b"<ul><li><a href=1>x</a><b>7</b><li><a href=2>y</a></ul>";

const RECORDS: [Row; 7] = [
    (
        "items: css('li').each{ u: css('a::attr(href)').get(); p: css('b::text').get() }",
        PAGE,
        Status::Done,
        "{\"fields\":[{\"name\":\"items\",\"value\":[{\"p\":\"7\",\"u\":\"1\"},{\"p\":null,\"u\":\"2\"}]}],\"page\":\"a.html\"}\n",
    ),
    (
        "items: css('li').each{ all: css('*::text').getall() }",
        PAGE,
        Status::Done,
        "{\"fields\":[{\"name\":\"items\",\"value\":[{\"all\":[\"x\",\"7\"]},{\"all\":[\"y\"]}]}],\"page\":\"a.html\"}\n",
    ),
    (
        "r: css('li').each{ z: css('a::text').get(); a: css('b::text').re('\\d').get(); Z: css('a::attr(href)').get(); a1: css('i').getall(); _: xpath('count(*)').get() }",
        PAGE,
        Status::Done,
        "{\"fields\":[{\"name\":\"r\",\"value\":[{\"Z\":\"1\",\"_\":\"2\",\"a\":\"7\",\"a1\":[],\"z\":\"x\"},{\"Z\":\"2\",\"_\":\"1\",\"a\":null,\"a1\":[],\"z\":\"y\"}]}],\"page\":\"a.html\"}\n",
    ),
    (
        "r: css('ul').css('a').each{ u: xpath('@href').get(); n: xpath('count(../preceding-sibling::li)').get() }",
        PAGE,
        Status::Done,
        "{\"fields\":[{\"name\":\"r\",\"value\":[{\"n\":\"0\",\"u\":\"1\"},{\"n\":\"1\",\"u\":\"2\"}]}],\"page\":\"a.html\"}\n",
    ),
    (
        "r: css('a::attr(href)').each{ u: xpath('.').get(); of: xpath('../text()').get() }",
        PAGE,
        Status::Done,
        "{\"fields\":[{\"name\":\"r\",\"value\":[{\"of\":\"x\",\"u\":\"1\"},{\"of\":\"y\",\"u\":\"2\"}]}],\"page\":\"a.html\"}\n",
    ),
    (
        "r: css('li').each{ below: xpath('.//a/text()').get(); page: xpath('//a/text()').get(); up: css('ul a').get() }",
        PAGE,
        Status::Done,
        "{\"fields\":[{\"name\":\"r\",\"value\":[{\"below\":\"x\",\"page\":\"x\",\"up\":null},{\"below\":\"y\",\"page\":\"x\",\"up\":null}]}],\"page\":\"a.html\"}\n",
    ),
    (
        "a: css('a::text').get(); r: css('p').each{ b: css('b').get() }",
        PAGE,
        Status::Done,
        "{\"fields\":[{\"name\":\"a\",\"value\":\"x\"},{\"name\":\"r\",\"value\":[]}],\"page\":\"a.html\"}\n",
    ),
];

#[test]
fn records(rt: HostRuntime) -> Result<(), Fail> {
    assert_eq!(rt; first_wrong(rt.alloc(), &RECORDS[..])?, None);
    Ok(())
}

/// Where blanks, `;`, line feeds, braces and quotes stand.
const WRITTEN: [Row; 8] = [
    (
        "\tr : css('li') . each\t{ u :\tcss('a::attr(href)') . get() ; }\t; s: css('b::text').get()",
        PAGE,
        Status::Done,
        "{\"fields\":[{\"name\":\"r\",\"value\":[{\"u\":\"1\"},{\"u\":\"2\"}]},{\"name\":\"s\",\"value\":\"7\"}],\"page\":\"a.html\"}\n",
    ),
    (
        "r: css('li').each{\n u: css('a::text').get()\n\n p: css('b::text').get();\n}\ns: css('b::text').get()",
        PAGE,
        Status::Done,
        "{\"fields\":[{\"name\":\"r\",\"value\":[{\"p\":\"7\",\"u\":\"x\"},{\"p\":null,\"u\":\"y\"}]},{\"name\":\"s\",\"value\":\"7\"}],\"page\":\"a.html\"}\n",
    ),
    (
        "r: css('li').each{ a: css('a').re('[;}{]').get(); b: css(\"a::text\").re('''|x').get() }; s: css('b').re('}').get()",
        PAGE,
        Status::Done,
        "{\"fields\":[{\"name\":\"r\",\"value\":[{\"a\":null,\"b\":\"x\"},{\"a\":null,\"b\":null}]},{\"name\":\"s\",\"value\":null}],\"page\":\"a.html\"}\n",
    ),
    (
        "a: css('b').get(); r: css('li').each{ a: css('b').get(); d: css('a::text').get()",
        PAGE,
        Status::Refused,
        "{\"fields\":[{\"name\":\"a\",\"value\":\"<b>7</b>\"},{\"name\":\"r\",\"refused\":\"field.Block\"},{\"name\":\"d\",\"value\":\"x\"}],\"page\":\"a.html\"}\n",
    ),
    (
        "r: css('ul').each{ a: css('li').each{ b: css('b').get() }; d: css('b').get() }",
        PAGE,
        Status::Refused,
        "{\"fields\":[{\"name\":\"r\",\"refused\":\"field.Block\"},{\"name\":\"d\",\"refused\":\"field.Chain\"}],\"page\":\"a.html\"}\n",
    ),
    (
        "r: css('b').get() }",
        PAGE,
        Status::Refused,
        "{\"fields\":[{\"name\":\"r\",\"refused\":\"field.Chain\"}],\"page\":\"a.html\"}\n",
    ),
    (
        "q: css('{').get(); v: xpath('\"}\"').get()",
        PAGE,
        Status::Refused,
        "{\"fields\":[{\"name\":\"q\",\"refused\":\"css.Text\"},{\"name\":\"v\",\"value\":\"}\"}],\"page\":\"a.html\"}\n",
    ),
    (
        ";r:css('ul').css('li').each { z: css('b::text').get(); b: xpath('count(a)').get() } ;",
        PAGE,
        Status::Done,
        "{\"fields\":[{\"name\":\"r\",\"value\":[{\"b\":\"1\",\"z\":\"7\"},{\"b\":\"1\",\"z\":null}]}],\"page\":\"a.html\"}\n",
    ),
];

#[test]
fn written(rt: HostRuntime) -> Result<(), Fail> {
    assert_eq!(rt; first_wrong(rt.alloc(), &WRITTEN[..])?, None);
    Ok(())
}

/// Why a block is refused, the reason that comes first in each row.
const REFUSED: [Row; 16] = [
    (
        "1r: css('li:frob').re('x').each{ a: css('b').get(); a: css('i').get() }.get()",
        PAGE,
        Status::Refused,
        "{\"fields\":[{\"name\":\"\",\"refused\":\"field.Name\"}],\"page\":\"a.html\"}\n",
    ),
    (
        "r: css('li:frob').re('x').each{ a: css('b').get(); a: css('i').get() }.get()",
        PAGE,
        Status::Refused,
        "{\"fields\":[{\"name\":\"r\",\"refused\":\"field.Block\"}],\"page\":\"a.html\"}\n",
    ),
    (
        "r: css('li').each{}",
        PAGE,
        Status::Refused,
        "{\"fields\":[{\"name\":\"r\",\"refused\":\"field.Block\"}],\"page\":\"a.html\"}\n",
    ),
    (
        "r: css('li').each{ ; \n }",
        PAGE,
        Status::Refused,
        "{\"fields\":[{\"name\":\"r\",\"refused\":\"field.Block\"}],\"page\":\"a.html\"}\n",
    ),
    (
        "r: each{ a: css('b').get() }",
        PAGE,
        Status::Refused,
        "{\"fields\":[{\"name\":\"r\",\"refused\":\"field.Block\"}],\"page\":\"a.html\"}\n",
    ),
    (
        "r: css('li').get().each{ a: css('b').get() }",
        PAGE,
        Status::Refused,
        "{\"fields\":[{\"name\":\"r\",\"refused\":\"field.Block\"}],\"page\":\"a.html\"}\n",
    ),
    (
        "r: css('ul').each{ a: css('li').each{ b: css('b').get() } }",
        PAGE,
        Status::Refused,
        "{\"fields\":[{\"name\":\"r\",\"refused\":\"field.Block\"}],\"page\":\"a.html\"}\n",
    ),
    (
        "r: css('li').re('x').css('li:frob').each{ a: css('b').get(); a: css('i').get() }",
        PAGE,
        Status::Refused,
        "{\"fields\":[{\"name\":\"r\",\"refused\":\"field.Order\"}],\"page\":\"a.html\"}\n",
    ),
    (
        "r: css('li').keep(same, 'x').xpath('1 div 2').each{ a: css('b').get(); a: css('i').get() }",
        PAGE,
        Status::Refused,
        "{\"fields\":[{\"name\":\"r\",\"refused\":\"field.Order\"}],\"page\":\"a.html\"}\n",
    ),
    (
        "r: xpath('string(//li)').css('li:frob').each{ a: css('b').get(); a: css('i').get() }",
        PAGE,
        Status::Refused,
        "{\"fields\":[{\"name\":\"r\",\"refused\":\"field.Order\"}],\"page\":\"a.html\"}\n",
    ),
    (
        "r: xpath('string(//li)').each{ a: css('b').get(); a: css('i').get() }",
        PAGE,
        Status::Refused,
        "{\"fields\":[{\"name\":\"r\",\"refused\":\"field.Order\"}],\"page\":\"a.html\"}\n",
    ),
    (
        "r: css('li').re('x').each{ a: css('b').get() }",
        PAGE,
        Status::Refused,
        "{\"fields\":[{\"name\":\"r\",\"refused\":\"field.Order\"}],\"page\":\"a.html\"}\n",
    ),
    (
        "r: css('li:frob').xpath('1 div 2').re('x').each{ a: css('b').get(); a: css('i').get() }",
        PAGE,
        Status::Refused,
        "{\"fields\":[{\"name\":\"r\",\"refused\":\"css.UnknownPseudo\"}],\"page\":\"a.html\"}\n",
    ),
    (
        "r: xpath('1 div 2').css('li:frob').each{ a: css('b').get(); a: css('i').get() }",
        PAGE,
        Status::Refused,
        "{\"fields\":[{\"name\":\"r\",\"refused\":\"xpath.Div\"}],\"page\":\"a.html\"}\n",
    ),
    (
        "r: css('li').each{ a: css('b').get(); a: css('a').get() }",
        PAGE,
        Status::Refused,
        "{\"fields\":[{\"name\":\"r\",\"refused\":\"field.Twice\"}],\"page\":\"a.html\"}\n",
    ),
    (
        "r: css('li').each{ 1a: css('b').get(); 2a: css('a').get() }",
        PAGE,
        Status::Refused,
        "{\"fields\":[{\"name\":\"r\",\"refused\":\"field.Twice\"}],\"page\":\"a.html\"}\n",
    ),
];

#[test]
fn refused_blocks(rt: HostRuntime) -> Result<(), Fail> {
    assert_eq!(rt; first_wrong(rt.alloc(), &REFUSED[..])?, None);
    Ok(())
}

/// A field of the body is refused alone, and so is a block.
const ALONE: [Row; 5] = [
    (
        "r: css('li').each{ a: css('b:frob').get(); b: css('a::text').get(); c: css('b') }",
        PAGE,
        Status::Refused,
        "{\"fields\":[{\"name\":\"r\",\"value\":[{\"a\":{\"refused\":\"css.UnknownPseudo\"},\"b\":\"x\",\"c\":{\"refused\":\"field.Chain\"}},{\"a\":{\"refused\":\"css.UnknownPseudo\"},\"b\":\"y\",\"c\":{\"refused\":\"field.Chain\"}}]}],\"page\":\"a.html\"}\n",
    ),
    (
        "r: css('li').each{ 1a: css('b').get(); b: css('b::text').get() }",
        PAGE,
        Status::Refused,
        "{\"fields\":[{\"name\":\"r\",\"value\":[{\"\":{\"refused\":\"field.Name\"},\"b\":\"7\"},{\"\":{\"refused\":\"field.Name\"},\"b\":null}]}],\"page\":\"a.html\"}\n",
    ),
    (
        "r: css('li').each{ a: css('b').keep(foo, 'x').get(); b: re('(').get(); c: re('a').css('b').get() }",
        PAGE,
        Status::Refused,
        "{\"fields\":[{\"name\":\"r\",\"value\":[{\"a\":{\"refused\":\"field.Test\"},\"b\":{\"refused\":\"re.Pattern\"},\"c\":{\"refused\":\"field.Order\"}},{\"a\":{\"refused\":\"field.Test\"},\"b\":{\"refused\":\"re.Pattern\"},\"c\":{\"refused\":\"field.Order\"}}]}],\"page\":\"a.html\"}\n",
    ),
    (
        "r: css('p').each{ a: css('b:frob').get() }",
        PAGE,
        Status::Done,
        "{\"fields\":[{\"name\":\"r\",\"value\":[]}],\"page\":\"a.html\"}\n",
    ),
    (
        "s: css('b::text').get(); r: css('li').each{}; t: css('li').each{ u: css('b::text').get() }; u: css('b:frob').get()",
        PAGE,
        Status::Refused,
        "{\"fields\":[{\"name\":\"s\",\"value\":\"7\"},{\"name\":\"r\",\"refused\":\"field.Block\"},{\"name\":\"t\",\"value\":[{\"u\":\"7\"},{\"u\":null}]},{\"name\":\"u\",\"refused\":\"css.UnknownPseudo\"}],\"page\":\"a.html\"}\n",
    ),
];

#[test]
fn members_alone(rt: HostRuntime) -> Result<(), Fail> {
    assert_eq!(rt; first_wrong(rt.alloc(), &ALONE[..])?, None);
    Ok(())
}

/// A `div` with so many elements `i`.
fn rows(alloc: Global, count: usize) -> Result<String, NoMemory> {
    let mut page = String::from_str(alloc, "<div>")?;
    for _ in 0..count {
        page.push_str("<i></i>")?;
    }
    page.push_str("</div>")?;
    Ok(page)
}

/// One record more than a block may have.
#[test]
fn too_many_records(rt: HostRuntime) -> Result<(), Fail> {
    let page = rows(rt.alloc(), 10_001)?;
    assert!(rt;
        is_line(
            rt.alloc(),
            "r: css('i').each{ a: css('b').get() }",
            page.as_bytes(),
            Status::Refused,
            "{\"fields\":[{\"name\":\"r\",\"refused\":\"field.Selection\"}],\"page\":\"a.html\"}\n"
        )?
    );
    Ok(())
}

/// As many as it may have.
#[test]
fn most_records(rt: HostRuntime) -> Result<(), Fail> {
    let alloc = rt.alloc();
    let page = rows(alloc, 10_000)?;
    let mut line = String::from_str(
        alloc,
        "{\"fields\":[{\"name\":\"r\",\"value\":[{\"a\":null}",
    )?;
    for _ in 0..9_999 {
        line.push_str(",{\"a\":null}")?;
    }
    line.push_str("]}],\"page\":\"a.html\"}\n")?;
    assert!(rt;
        is_line(
            alloc,
            "r: css('i').each{ a: css('b').get() }",
            page.as_bytes(),
            Status::Done,
            line.as_str()
        )?
    );
    Ok(())
}
