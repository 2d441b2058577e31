//! What a run meets at its limits, from both sides.
use crate::tested::{is_line, run};
use extract_call::Status;
use std::alloc::Global;
use std::test::Fail;
use text_base::NoMemory;

/// So many elements `b` in each other.
fn nested(alloc: Global, count: usize) -> Result<String, NoMemory> {
    let mut page = String::new(alloc);
    for _ in 0..count {
        page.push_str("<b>")?;
    }
    for _ in 0..count {
        page.push_str("</b>")?;
    }
    Ok(page)
}

/// The markup of 512 elements in each other has 919,296 bytes; around it and between stand the line and its quotes and commas.
#[test]
fn deepest_markup(rt: HostRuntime) -> Result<(), Fail> {
    let alloc = rt.alloc();
    let page = nested(alloc, 512)?;
    let words = ["run", "html", "v: css('b').getall()", "a.html"];
    let pages: [(&str, &[u8]); 1] = [("a.html", page.as_bytes())];
    let ran = run(alloc, words.as_slice(), pages.as_slice(), 9_999)?;
    assert_eq!(rt; ran.status, Status::Done);
    assert_eq!(rt; ran.bytes.len(), 919_296 + 512 * 2 + 511 + 53);
    Ok(())
}

#[test]
fn too_deep(rt: HostRuntime) -> Result<(), Fail> {
    let page = nested(rt.alloc(), 513)?;
    assert!(rt;
        is_line(
            rt.alloc(),
            "v: css('b').getall()",
            page.as_bytes(),
            Status::Refused,
            "{\"at\":1536,\"page\":\"a.html\",\"refused\":\"page.Deep\"}\n"
        )?
    );
    Ok(())
}

#[test]
fn deepest_is_counted(rt: HostRuntime) -> Result<(), Fail> {
    let page = nested(rt.alloc(), 512)?;
    assert!(rt;
        is_line(
            rt.alloc(),
            "v: xpath('count(//b)').get()",
            page.as_bytes(),
            Status::Done,
            "{\"fields\":[{\"name\":\"v\",\"value\":\"512\"}],\"page\":\"a.html\"}\n"
        )?
    );
    Ok(())
}

/// A paragraph of so many letters.
fn letters(alloc: Global, count: usize) -> Result<String, NoMemory> {
    let mut page = String::from_str(alloc, "<p>")?;
    for _ in 0..count {
        page.push('a')?;
    }
    Ok(page)
}

#[test]
fn longest_page(rt: HostRuntime) -> Result<(), Fail> {
    let alloc = rt.alloc();
    let script = "v: xpath('string-length(//p)').get()";
    let line = "{\"fields\":[{\"name\":\"v\",\"value\":\"4194301\"}],\"page\":\"a.html\"}\n";
    let page = letters(alloc, 4_194_301)?;
    assert!(rt; is_line(alloc, script, page.as_bytes(), Status::Done, line)?);
    let line = "{\"at\":4194304,\"page\":\"a.html\",\"refused\":\"page.TooLong\"}\n";
    let page = letters(alloc, 4_194_302)?;
    assert!(rt; is_line(alloc, script, page.as_bytes(), Status::Refused, line)?);
    Ok(())
}

/// The text of the paragraph and its markup, which has three bytes before it and four behind: together 8,388,607 bytes and, with
/// one letter more, two bytes more, of which a field gives 8,388,608 at most.
#[test]
fn most_output(rt: HostRuntime) -> Result<(), Fail> {
    let alloc = rt.alloc();
    let script = "v: xpath('//p/text() | //p').getall()";
    let page = letters(alloc, 4_194_300)?;
    let words = ["run", "html", script, "a.html"];
    let pages: [(&str, &[u8]); 1] = [("a.html", page.as_bytes())];
    let ran = run(alloc, words.as_slice(), pages.as_slice(), 9_999)?;
    assert_eq!(rt; ran.status, Status::Done);
    assert_eq!(rt; ran.bytes.len(), 8_388_607 + 2 * 2 + 1 + 53);
    let line = "{\"fields\":[{\"name\":\"v\",\"refused\":\"field.Output\"}],\"page\":\"a.html\"}\n";
    let page = letters(alloc, 4_194_301)?;
    assert!(rt; is_line(alloc, script, page.as_bytes(), Status::Refused, line)?);
    Ok(())
}

/// The text so many times between two others.
fn between(
    alloc: Global,
    first: &str,
    text: &str,
    count: usize,
    last: &str,
) -> Result<String, NoMemory> {
    let mut page = String::from_str(alloc, first)?;
    for _ in 0..count {
        page.push_str(text)?;
    }
    page.push_str(last)?;
    Ok(page)
}

/// Each of a thousand elements leads to a thousand, which are as many as a step may give.
#[test]
fn most_selected(rt: HostRuntime) -> Result<(), Fail> {
    let alloc = rt.alloc();
    let script = "v: css('i').xpath('//i').css('u').getall()";
    let line = "{\"fields\":[{\"name\":\"v\",\"value\":[]}],\"page\":\"a.html\"}\n";
    let page = between(alloc, "<div>", "<i></i>", 1_000, "</div>")?;
    assert!(rt; is_line(alloc, script, page.as_bytes(), Status::Done, line)?);
    let line =
        "{\"fields\":[{\"name\":\"v\",\"refused\":\"field.Selection\"}],\"page\":\"a.html\"}\n";
    let page = between(alloc, "<div>", "<i></i>", 1_001, "</div>")?;
    assert!(rt; is_line(alloc, script, page.as_bytes(), Status::Refused, line)?);
    Ok(())
}

/// Of 500,000 elements each asks for the elements of a name, and then for how many siblings stand before it: with a walk for each
/// of them neither run would end in an hour.
#[test]
fn many_elements(rt: HostRuntime) -> Result<(), Fail> {
    let alloc = rt.alloc();
    let page = between(alloc, "<ul>", "<li>", 500_000, "<b></b></ul>")?;
    for (script, line) in [
        (
            "v: xpath('count(/descendant::li[count(/descendant::b) = 1])').get()",
            "{\"fields\":[{\"name\":\"v\",\"value\":\"500000\"}],\"page\":\"a.html\"}\n",
        ),
        (
            "v: xpath('count(/descendant::li[count(preceding-sibling::*) mod 2 = 0])').get()",
            "{\"fields\":[{\"name\":\"v\",\"value\":\"250000\"}],\"page\":\"a.html\"}\n",
        ),
    ] {
        assert!(rt;
            is_line(alloc, script, page.as_bytes(), Status::Done, line)?,
            "{script}"
        );
    }
    Ok(())
}

/// The text so many times, with commas between.
fn listed(alloc: Global, text: &str, count: usize) -> Result<String, NoMemory> {
    let mut out = String::new(alloc);
    for i in 0..count {
        if i > 0 {
            out.push_str(",")?;
        }
        out.push_str(text)?;
    }
    Ok(out)
}

/// A script of 32 fields `b`, and the line of a page without such an element.
#[test]
fn most_fields(rt: HostRuntime) -> Result<(), Fail> {
    let alloc = rt.alloc();
    let mut script = String::new(alloc);
    for _ in 0..32 {
        script.push_str("a: css('b').get();")?;
    }
    let fields = listed(alloc, "{\"name\":\"a\",\"value\":null}", 32)?;
    let mut line = String::from_str(alloc, "{\"fields\":[")?;
    line.push_str(fields.as_str())?;
    line.push_str("],\"page\":\"a.html\"}\n")?;
    assert!(rt; is_line(alloc, script.as_str(), b"<p>", Status::Done, line.as_str())?);
    Ok(())
}
