//! What to write in place of what is refused: a line for each reason.
ghost use Rattle.std.specs.Prelude.{◌≡◌};
ghost use Rattle.refusal_texts.specs.Advice as spec;

use query_script::Reason;
use text_base::{PageReason, ScriptFault, SelectorFault, XPathFault};

/// What to write where a selector is refused.
pub fn selector_advice(reason: &SelectorFault) -> &str
    ensures { result.now ≡ spec.selector_advice reason.now }
{
    match reason {
        SelectorFault::Long => "a shorter selector, or several fields in place of one list",
        SelectorFault::Text =>
            "put a value that is not a name in quotes: a[href=\"/p/1\"]; close each quote; an attribute is given by a::attr(href)",
        SelectorFault::Syntax =>
            "put a value that is not a name in quotes: a[href=\"/p/1\"]; close each bracket; a class begins with a letter: [class~=\"2col\"]",
        SelectorFault::Prefix =>
            "the name alone, as path for svg|path, or with the colon of the page: [xlink\\:href]",
        SelectorFault::UnknownPseudo =>
            "a class of the list in SELECTORS.md, as :first-child, :nth-child(2), :not(.x), :has(> a) or :contains('x'); get() gives the first of all",
        SelectorFault::PseudoElement =>
            "::text for texts or ::attr(href) for an attribute, at the selector's end and in no bracket",
        SelectorFault::Nested => "fewer brackets in each other: a:has(b c) for a:has(b:has(c))",
        SelectorFault::OfType => "an element's name before the class: p:first-of-type",
        SelectorFault::Number => "a number up to 1000000",
        SelectorFault::XPathLong => "a shorter selector, or several fields in place of one list",
        SelectorFault::Memory => "try again where more memory is free",
    }
}

/// What to write where an XPath text is refused.
pub fn xpath_advice(reason: &XPathFault) -> &str
    ensures { result.now ≡ spec.xpath_advice reason.now }
{
    match reason {
        XPathFault::Long => "a shorter expression",
        XPathFault::Text =>
            "close each quote; an id is asked by @id = 'main', a class by contains(@class, 'note')",
        XPathFault::Deep => "fewer brackets in each other: [a and b] for [(a) and (b)]",
        XPathFault::Syntax =>
            "close each bracket; after each / and each operator stands a step or a value: //li[@class = 'book']/a",
        XPathFault::Fraction =>
            "a whole number; where texts have points, take them out: translate(., '.', '') > 999",
        XPathFault::Range =>
            "a smaller number, or its digits compared as a text: . = '9007199254740992'",
        XPathFault::Div =>
            "multiply the other side: a > 2 * b for a div b > 2; mod gives what is left",
        XPathFault::Variable => "the value itself, in quotes: @class = 'book'",
        XPathFault::Prefix => "compare the whole name: *[name() = 'svg:path']",
        XPathFault::Function =>
            "a function of XPath 1.0, as contains or translate, or same, ends-with, has-word or near; a pattern stands in a step re('..') of a script",
        XPathFault::Arguments => "all its arguments, with commas between: contains(@href, '1')",
        XPathFault::WrongType => "a path in its place: count(//a) for count('a')",
        XPathFault::Memory => "try again where more memory is free",
    }
}

/// What to write where a page is refused.
pub fn page_advice(reason: &PageReason) -> &str
    ensures { result.now ≡ spec.page_advice reason.now }
{
    match reason {
        PageReason::TooLong => "cut it into parts",
        PageReason::NotUtf8 => "write the page in UTF-8: iconv -f WINDOWS-1252 -t UTF-8 < PAGE",
        PageReason::Nul => "take such bytes out: tr -d '\\000' < PAGE",
        PageReason::BadTag =>
            "end each tag by > and close the quotes of its values; an end tag has a name alone: </p>; before a letter write &lt; for a < that begins no tag",
        PageReason::BadAttribute =>
            "put each value in one pair of quotes: <a href=\"/p/1\" class=\"x\">; &quot; stands for a quote in a value",
        PageReason::BadComment =>
            "begin a comment by <!-- and a character other than > and end it by -->, with no --!> in it",
        PageReason::BadMarkup =>
            "end a doctype and <? by >; take <![CDATA[ and its ]]> out and keep the text between",
        PageReason::StrayEnd =>
            "drop it where its element has ended before, as </p> after a list or a table; end inner elements first: <b><i>x</i></b>; <br> has no end tag",
        PageReason::Unclosed =>
            "write its end tag; <div/> begins a div and does not end it: <div></div>",
        PageReason::TextOutside => "move it into the element",
        PageReason::SecondRoot => "move it before </html>",
        PageReason::NoRoot =>
            "give a page with an element or a text; is this the file that was meant?",
        PageReason::Deep =>
            "look for elements that are never ended, as <b> or <font>, and end them",
        PageReason::Memory => "try again where more memory is free",
    }
}

/// What to write where a field has no value.
pub fn field_advice(reason: &Reason) -> &str
    ensures { result.now ≡ spec.field_advice reason.now }
{
    match reason {
        Reason::Name =>
            "a name of letters, digits and _ that begins with no digit, and a colon: title: css('title::text').get(); it is the script's text that is given, not its file",
        Reason::Chain =>
            "steps and .get() or .getall(), all on one line: css('li').css('a::text').re('[0-9]+').get(); close each quote and bracket; a quote in a text is written twice: 'It''s'",
        Reason::Order =>
            "let the steps before give elements: re last, and //li for string(//li); re and keep of a block stand inside its braces",
        Reason::Test =>
            "keep(same, '..'), keep(ends-with, '..'), keep(has-word, '..') or keep(near, '..')",
        Reason::Block =>
            "rows: css('li').each{ name: css('a::text').get() }, with no end before each, 1 to 32 fields, both braces and no block inside",
        Reason::Twice => "a name of its own for each; a field without a name has the empty one",
        Reason::Selection => "narrow the steps, or take a field with .getall() in place of a block",
        Reason::Output => "take ::text or ::attr(href) and not the markup of elements",
        Reason::Pattern =>
            "write \\( for a bracket and close each ( and [; look-around and back-references are not there",
        Reason::Css(fault) => selector_advice(fault),
        Reason::XPath(fault) => xpath_advice(fault),
    }
}

/// What to write where a script is refused as a whole.
pub fn script_advice(reason: &ScriptFault) -> &str
    ensures { result.now ≡ spec.script_advice reason.now }
{
    match reason {
        ScriptFault::Long => "a shorter script, or two scripts in two runs",
        ScriptFault::Fields =>
            "fewer fields, or two scripts in two runs; a block counts as one field",
        ScriptFault::Memory => "try again where more memory is free",
    }
}
