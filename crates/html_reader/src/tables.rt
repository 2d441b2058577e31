//! The tables by element name.
ghost use Rattle.std.specs.Prelude.{◌≡◌, map, not, true};
ghost use Rattle.text_base.specs.Strings.{is_among};
ghost use Rattle.html_reader.specs.Tables.{is_void, is_foreign, may_omit_end, start_ends, head_names, is_listed, are_apart};
ghost use Rattle.html_reader.specs.inner.Views.{ending_of};

use html_lexer::void_names;
use text_base::is_among;

#[tactic(auto, unfolding(crate::specs::Tables::void_names))]
pub fn is_void(name: &str) -> bool
    ensures { result ≡ is_void name.now }
{
    name.len() >= 2 && name.len() <= 6 && is_among(void_names(), name)
}

static FOREIGN: [&str; 2] = ["svg", "math"];

static OMITTING: [&str; 21] = [
    "html", "head", "body", "li", "dt", "dd", "p", "rt", "rp", "optgroup", "option", "colgroup",
    "caption", "thead", "tbody", "tfoot", "tr", "td", "th", "rb", "rtc",
];

static HEAD: [&str; 11] = [
    "base", "basefont", "bgsound", "link", "meta", "noframes", "noscript", "script", "style",
    "template", "title",
];

struct Ending {
    opens: &'static [&'static str],
    tags: &'static [&'static str],
}

static ENDINGS: [Ending; 11] = [
    Ending {
        opens: &["p"],
        tags: &[
            "address",
            "article",
            "aside",
            "blockquote",
            "caption",
            "center",
            "colgroup",
            "dd",
            "details",
            "dialog",
            "dir",
            "div",
            "dl",
            "dt",
            "fieldset",
            "figcaption",
            "figure",
            "footer",
            "form",
            "h1",
            "h2",
            "h3",
            "h4",
            "h5",
            "h6",
            "header",
            "hgroup",
            "hr",
            "li",
            "listing",
            "main",
            "menu",
            "nav",
            "ol",
            "p",
            "pre",
            "search",
            "section",
            "summary",
            "table",
            "tbody",
            "td",
            "tfoot",
            "th",
            "thead",
            "tr",
            "ul",
            "xmp",
        ],
    },
    Ending {
        opens: &["li"],
        tags: &["li"],
    },
    Ending {
        opens: &["dt", "dd"],
        tags: &["dt", "dd"],
    },
    Ending {
        opens: &["rt", "rp", "rb", "rtc"],
        tags: &["rb", "rp", "rt", "rtc"],
    },
    Ending {
        opens: &["option"],
        tags: &["option", "optgroup"],
    },
    Ending {
        opens: &["optgroup"],
        tags: &["optgroup"],
    },
    Ending {
        opens: &["colgroup"],
        tags: &["caption", "colgroup", "tbody", "tfoot", "thead", "tr"],
    },
    Ending {
        opens: &["caption"],
        tags: &[
            "caption", "col", "colgroup", "tbody", "td", "tfoot", "th", "thead", "tr",
        ],
    },
    Ending {
        opens: &["thead", "tbody", "tfoot"],
        tags: &["tbody", "tfoot", "thead"],
    },
    Ending {
        opens: &["tr"],
        tags: &["tbody", "tfoot", "thead", "tr"],
    },
    Ending {
        opens: &["td", "th"],
        tags: &["tbody", "td", "tfoot", "th", "thead", "tr"],
    },
];

#[tactic(auto, unfolding(crate::specs::Tables::foreign_names))]
pub fn is_foreign(name: &str) -> bool
    ensures { result ≡ is_foreign name.now }
{
    is_among(&FOREIGN, name)
}

#[tactic(auto, unfolding(crate::specs::Tables::omitting_names))]
pub fn may_omit_end(name: &str) -> bool
    ensures { result ≡ may_omit_end name.now }
{
    is_among(&OMITTING, name)
}

#[tactic(auto, unfolding(crate::specs::Tables::head_names))]
fn ends_head(name: &str) -> bool
    ensures { result ≡ not (is_among name.now head_names) }
{
    !is_among(&HEAD, name)
}

/// Whether the start tag is listed for the open element, which no two of the entries have.
fn is_listed(endings: &[Ending], element: &str, name: &str) -> bool
    requires { are_apart (map ending_of endings.now) ≡ true }
    ensures { result ≡ is_listed (map ending_of endings.now) element.now name.now }
{
    for ending in endings {
        if is_among(ending.opens, element) {
            return is_among(ending.tags, name);
        }
    }
    false
}

#[tactic(auto, unfolding(crate::specs::Tables::endings))]
pub fn start_ends(element: &str, name: &str) -> bool
    ensures { result ≡ start_ends element.now name.now }
{
    if element == "head" {
        ends_head(name)
    } else {
        is_listed(&ENDINGS, element, name)
    }
}
