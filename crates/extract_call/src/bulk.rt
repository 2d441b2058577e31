//! The bulk page, and the line of it.
ghost use Rattle.std.specs.Prelude.{◌≡◌, ◌≤◌, ◌+◌, ◌++◌, ◌<◌, IfOk, OnOk, string_bytes, decimal};
ghost use Rattle.test_registry.specs.View.{known};
ghost use Rattle.extract_call.specs.Answers.{answer_of};
ghost use Rattle.extract_call.specs.Bulk.{item_tag, link_of, bulk_item, bulk_text};
ghost use Rattle.extract_call.specs.Plans.{IsBulkLine};

use crate::answers::{Line, script_answer};
use crate::asked::Asked;
use crate::laws::laws_below;
use crate::page_lines::{page_answer, prepare_entries};
use css_selectors::Dialect;
use page_records::parse_records;
use std::alloc::Global;
use test_registry::Tests;
use text_base::{NoMemory, ScriptFault};

/// What is asked of the bulk page: five fields.
const BULK_SCRIPT: &str =
    "items: xpath('count(//li)').get()\nk3: xpath('count(//li[@class = \"k3\"])').get()\nlast: css('ul > li:last-child a::text').get()\nodd: xpath('count(//li[count(preceding-sibling::li) mod 2 = 0])').get()\nfirst: css('#n1 a::attr(href)').get()";

fn push(page: &mut String, text: &str) -> Result<(), NoMemory>
    ensures { OnOk result (string_bytes page.new ≡ string_bytes page.old ++ text.now) }
{
    match page.push_str(text) {
        Ok(()) => Ok(()),
        Err(_) => Err(NoMemory),
    }
}

/// The digit of a number below seven.
fn digit(n: u32) -> &'static str
    requires { n < 7 }
    ensures { result.now ≡ decimal n }
{
    match n {
        0 => "0",
        1 => "1",
        2 => "2",
        3 => "3",
        4 => "4",
        5 => "5",
        _ => "6",
    }
}

/// Appends the start tag of the item of this number, which has these digits.
fn push_tag(page: &mut String, i: u32, digits: &str) -> Result<(), NoMemory>
    requires { digits.now ≡ decimal i }
    ensures { OnOk result (string_bytes page.new ≡ string_bytes page.old ++ item_tag i) }
{
    push(page, "<li class=\"k")?;
    push(page, digit(i % 7))?;
    push(page, "\" id=\"n")?;
    push(page, digits)?;
    push(page, "\">")
}

/// Appends the link of the item whose number has these digits.
fn push_link(page: &mut String, digits: &str) -> Result<(), NoMemory>
    ensures { OnOk result (string_bytes page.new ≡ string_bytes page.old ++ link_of digits.now) }
{
    push(page, "<a href=\"/p/")?;
    push(page, digits)?;
    push(page, "\">item ")?;
    push(page, digits)?;
    push(page, "</a>")
}

/// Appends the item of this number.
fn push_item(alloc: Global, page: &mut String, i: u32) -> Result<(), NoMemory>
    ensures { OnOk result (string_bytes page.new ≡ string_bytes page.old ++ bulk_item i) }
{
    let digits = match i.to_string(alloc) {
        Ok(digits) => digits,
        Err(_) => return Err(NoMemory),
    };
    push_tag(page, i, digits.as_str())?;
    push_link(page, digits.as_str())
}

/// The page with the items from 1 to `n`, in one line: a list whose items have classes, ids and links.
pub fn bulk_page(alloc: Global, n: u32) -> Result<String, NoMemory>
    requires some { 1 ≤ n }
    requires most { n ≤ 20000 }
    ensures { IfOk result (λ s. string_bytes s ≡ bulk_text n) }
{
    let mut page = String::with_capacity(alloc, 100 + 64 * n as usize)?;
    push(
        &mut page,
        "<!DOCTYPE html><html><head><title>bulk</title></head><body><ul>",
    )?;
    for i in 0..n {
        push_item(alloc, &mut page, i + 1)?;
    }
    push(&mut page, "</ul></body></html>")?;
    Ok(page)
}

/// The line that the bulk script has for the bulk page of `n` items, where these tests are stored.
pub fn bulk_answer(alloc: Global, n: u32, tests: &Tests) -> Result<Line, NoMemory>
    requires some { 1 ≤ n }
    requires most { n ≤ 20000 }
    ensures { IfOk result (λ line. IsBulkLine (known tests.now) n (answer_of line)) }
{
    laws_below();
    match parse_records(alloc, Dialect::Html, BULK_SCRIPT, tests) {
        Ok(script) => {
            let ready = prepare_entries(alloc, script.entries.as_slice(), tests)?;
            let page = bulk_page(alloc, n)?;
            page_answer(
                alloc,
                Asked::Values(&script.entries, ready.as_slice()),
                "bulk",
                page.as_bytes(),
                tests,
            )
        }
        Err(ScriptFault::Memory) => Err(NoMemory),
        Err(fault) => script_answer(alloc, BULK_SCRIPT, fault),
    }
}
