ghost use Rattle.std.specs.Prelude.{◌≡◌, ◌++◌, OnOk, IfOk, map, string_bytes, encode_utf8_all, codes};
ghost use Rattle.std.specs.Char.{to_ascii_lowercase};
ghost use Rattle.css_selectors.specs.declared.selector.Dialect.TheVariants.{Generic, Html};
ghost use Rattle.css_printed.specs.Literals.{literal_text};
ghost use Rattle.css_printed.specs.Simples.{lang_text};

use crate::literals::{push_literal, push_value};
use crate::pushing::push;
use css_selectors::Dialect;
use std::alloc::Global;
use text_base::{NoMemory, Txt, lower_ascii};

/// `[lang('tag')]`
fn push_lang_test(out: &mut String, tag: &Txt) -> Result<(), NoMemory>
    ensures { OnOk result (string_bytes out.new ≡ string_bytes out.old ++ lang_text Generic tag.now) }
{
    push(out, "[lang(")?;
    push_value(out, tag)?;
    push(out, ")]")
}

/// The tag in lower case, and `-`.
fn subtag(alloc: Global, tag: &Txt) -> Result<String, NoMemory>
    ensures { IfOk result (λ t. string_bytes t ≡ encode_utf8_all (map to_ascii_lowercase tag.now) ++ codes "-") }
{
    let mut text = lower_ascii(alloc, tag.as_str())?;
    push(&mut text, "-")?;
    Ok(text)
}

/// `[ancestor-or-self::*[@lang][1][starts-with(concat(translate(@lang, ..), '-'), 'tag-')]]`
fn push_nearest(out: &mut String, start: &str) -> Result<(), NoMemory>
    ensures { OnOk result (string_bytes out.new ≡ string_bytes out.old ++ (codes "[ancestor-or-self::*[@lang][1][starts-with(concat(translate(@lang, 'ABCDEFGHIJKLMNOPQRSTUVWXYZ', 'abcdefghijklmnopqrstuvwxyz'), '-'), " ++ (literal_text start.now ++ codes ")]]"))) }
{
    push(
        out,
        "[ancestor-or-self::*[@lang][1][starts-with(concat(translate(@lang, 'ABCDEFGHIJKLMNOPQRSTUVWXYZ', 'abcdefghijklmnopqrstuvwxyz'), '-'), ",
    )?;
    push_literal(out, start)?;
    push(out, ")]]")
}

/// `[ancestor-or-self::*[@lang][1][starts-with(concat(translate(@lang, ..), '-'), 'tag-')]]`
fn push_nearest_lang(alloc: Global, out: &mut String, tag: &Txt) -> Result<(), NoMemory>
    ensures { OnOk result (string_bytes out.new ≡ string_bytes out.old ++ lang_text Html tag.now) }
{
    let start = subtag(alloc, tag)?;
    push_nearest(out, start.as_str())
}

/// Appends the predicate of a language.
pub fn push_lang(
    alloc: Global,
    out: &mut String,
    dialect: Dialect,
    tag: &Txt,
) -> Result<(), NoMemory>
    ensures { OnOk result (string_bytes out.new ≡ string_bytes out.old ++ lang_text dialect tag.now) }
{
    match dialect {
        Dialect::Generic => push_lang_test(out, tag),
        Dialect::Html => push_nearest_lang(alloc, out, tag),
    }
}
