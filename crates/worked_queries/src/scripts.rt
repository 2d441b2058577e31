//! The fields of scripts.
use css_selectors::Dialect;
use query_script::{Chain, ChainStep, Script, Take, parse_script};
use std::alloc::Global;
use std::test::Fail;
use text_base::ScriptFault;

/// A line for each field: its name, then its steps and its end, or its reason.
fn shown(alloc: Global, script: &Script) -> Result<String, Fail> {
    let mut out = String::new(alloc);
    for field in script.fields.as_slice() {
        out.push_str(field.name.as_str())?;
        match &field.chain {
            Chain::Refused(why) => {
                let (first, second) = why.words();
                out.push_str("!")?;
                out.push_str(first)?;
                out.push_str(".")?;
                out.push_str(second)?;
            }
            Chain::Steps(steps, take) => {
                for step in steps.as_slice() {
                    match step {
                        ChainStep::Query(text) => {
                            out.push_str("|query ")?;
                            out.push_str(text.as_str())?;
                        }
                        ChainStep::Match(pattern) => {
                            out.push_str("|match ")?;
                            out.push_str(pattern.as_str())?;
                        }
                        ChainStep::Keep(_, text) => {
                            out.push_str("|keep ")?;
                            out.push_str(text.as_str())?;
                        }
                    }
                }
                match take {
                    Take::First => out.push_str("|first")?,
                    Take::All => out.push_str("|all")?,
                }
            }
        }
        out.push_str("\n")?;
    }
    Ok(out)
}

#[test]
fn scripts(rt: HostRuntime) -> Result<(), Fail> {
    let alloc = rt.alloc();
    for (text, fields) in [
        ("", ""),
        (" ;\t\r\n;;\r", ""),
        (
            "1x: css('a').get(); y: css('a'); z: re('a').css('b').get(); w: re('(').getall()",
            "!field.Name\ny!field.Chain\nz!field.Order\nw|match (|all\n",
        ),
        ("'a:b' : css('p').get()", "!field.Name\n"),
        ("css('p').get()", "!field.Name\n"),
        (
            "_a1 :\tcss('b::text') . re(\"x\") .getall() \r\nb:css('B').get()\r\n",
            "_a1|query descendant-or-self::b/text()|match x|all\nb|query descendant-or-self::b|first\n",
        ),
        ("a: css( 'a').get()", "a!field.Chain\n"),
        ("a: get()", "a!field.Chain\n"),
        ("a: css('a').get().get()", "a!field.Chain\n"),
        ("a: css('a.get()", "a!field.Chain\n"),
        ("a: re('it''s').get()", "a|match it's|first\n"),
        (
            "a: re(\"\"\"\").get(); b: re('\"').get()",
            "a|match \"|first\nb|match \"|first\n",
        ),
        ("a: re('x;y\nz.').getall()", "a|match x;y\nz.|all\n"),
        ("a: re('\\').get()", "a|match \\|first\n"),
        (
            "é: css('a').get(); a: re('é').get()",
            "!field.Name\na|match é|first\n",
        ),
        (
            "a: css('a &').get(); b: css('a:frob').css('&').get()",
            "a!css.Text\nb!css.UnknownPseudo\n",
        ),
        ("a: re('a').css('&').get()", "a!field.Order\n"),
    ] {
        let script = parse_script(alloc, Dialect::Html, text).expect(&rt, "script");
        let lines = shown(alloc, &script)?;
        assert_eq!(rt; lines.as_str(), fields, "{text}");
    }
    Ok(())
}

#[test]
fn queries(rt: HostRuntime) -> Result<(), Fail> {
    let alloc = rt.alloc();
    for (text, fields) in [
        (
            "1x: css('a').get(); y: css('a'); z: xpath('1').css('b').get()",
            "!field.Name\ny!field.Chain\nz!field.Order\n",
        ),
        (
            "a: css('b::text').get(); c: xpath('1 div 2').get()",
            "a|query descendant-or-self::b/text()|first\nc!xpath.Div\n",
        ),
        (
            "a: xpath('//p').css('B').xpath('string()').getall()",
            "a|query //p|query descendant-or-self::B|query string()|all\n",
        ),
    ] {
        let script = parse_script(alloc, Dialect::Generic, text).expect(&rt, "script");
        let lines = shown(alloc, &script)?;
        assert_eq!(rt; lines.as_str(), fields, "{text}");
    }
    Ok(())
}

/// The piece, so many times.
fn times(alloc: Global, piece: &str, count: usize) -> Result<String, Fail> {
    let mut text = String::new(alloc);
    for _ in 0..count {
        text.push_str(piece)?;
    }
    Ok(text)
}

#[test]
fn limits(rt: HostRuntime) -> Result<(), Fail> {
    let alloc = rt.alloc();
    let fault = |piece: &str, count: usize| -> Result<Option<ScriptFault>, Fail> {
        let text = times(alloc, piece, count)?;
        Ok(parse_script(alloc, Dialect::Html, text.as_str()).err())
    };
    assert_eq!(rt; fault("a:;", 32)?, None);
    assert_eq!(rt; fault("a:;", 33)?, Some(ScriptFault::Fields));
    assert_eq!(rt; fault(" ", 65_536)?, None);
    assert_eq!(rt; fault(" ", 65_537)?, Some(ScriptFault::Long));
    assert_eq!(rt; fault("a:;", 21_846)?, Some(ScriptFault::Long));
    Ok(())
}
