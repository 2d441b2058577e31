//! The matches of a pattern in a text, one after the other.
ghost use Rattle.std.specs.Prelude.{◌≡◌, ◌≢◌, ◌≤◌, ◌<◌, ◌+◌, ⊤, true, None, Some, [], map, length, slice_range, flat_map, IfOk, OnOk, MatchOption, IsErrOf};
ghost use Rattle.std.specs.Str.{chars};
ghost use Rattle.std.specs.Option.{option_map_or};
ghost use Rattle.regex.specs.Patterns.{Match, find_str};
ghost use Rattle.regex.specs.Search.{next_match};
ghost use Rattle.regex.specs.Strings.{matcher_pattern, regex_pattern, regex_source, captures_span, captures_haystack, IsCapturesOf};
ghost use Rattle.query_chain.specs.Patterns.{match_texts, texts_of, found_texts};
ghost use Rattle.query_chain.specs.inner.Built.{IsBuilt};
ghost use Rattle.query_chain.specs.Items.{bytes_of};
ghost use Rattle.query_chain.specs.inner.Found.{Adds};

use crate::found::Found;
use crate::limits::{Limits, Stop};
use regex::{Captures, Matcher, Regex};
use std::alloc::Global;
use text_base::Txt;

/// What a group matched, or nothing.
fn group_text<'h>(captures: &Captures<'_, 'h>, k: usize) -> &'h str
    ensures { result.now ≡ option_map_or (λ s. slice_range (captures_haystack captures.now) s.0 s.1) (captures_span captures.now k) [] }
{
    match captures.get(k) {
        Some(found) => found.as_str(),
        None => "",
    }
}

/// Adds the whole match where the pattern has no group, else each group in order.
fn add_match(
    alloc: Global,
    captures: &Captures<'_, '_>,
    groups: usize,
    limits: Limits,
    out: &mut Found,
) -> Result<(), Stop>
    ensures ok { OnOk result ((m : Match) → IsCapturesOf (captures_haystack captures.now) m captures.now
        → Adds limits out.old out.new (map chars (texts_of groups (captures_haystack captures.now) m))) }
    ensures many { IsErrOf result Stop.Selection → (m : Match) → IsCapturesOf (captures_haystack captures.now) m captures.now
        → limits.items < out.old.count + length (texts_of groups (captures_haystack captures.now) m) }
    ensures output { result ≢ Err Stop.Output }
{
    if groups <= 1 {
        out.add(alloc, limits, group_text(captures, 0))?;
        return Ok(());
    }
    for k in 1..groups {
        out.add(alloc, limits, group_text(captures, k))?;
    }
    Ok(())
}

/// Where the next search starts: `after` is one more than the end of the last match, or 0 at first.
fn search_start(matcher: &mut Matcher<'_>, text: &str, after: usize) -> usize
    ensures start { find_str (matcher_pattern matcher.old) text.now result ≡ next_match true (matcher_pattern matcher.old) text.now after }
    ensures same { matcher_pattern matcher.new ≡ matcher_pattern matcher.old }
{
    if after == 0 {
        return 0;
    }
    let end = after - 1;
    match matcher.find_at(text, end) {
        Some(found) => { if found.end() == end { after } else { end } }
        None => end,
    }
}

/// Adds the texts of the next match, and says where it ends.
fn add_next(
    alloc: Global,
    matcher: &mut Matcher<'_>,
    text: &str,
    after: usize,
    groups: usize,
    limits: Limits,
    out: &mut Found,
) -> Result<Option<usize>, Stop>
    ensures same { OnOk result (matcher_pattern matcher.new ≡ matcher_pattern matcher.old) }
    ensures next { IfOk result (λ r. MatchOption r
        ((next_match true (matcher_pattern matcher.old) text.now after ≡ None) × (out.new ≡ out.old))
        (λ end. (m : Match) × (next_match true (matcher_pattern matcher.old) text.now after ≡ Some m) × (end ≡ m.trace.end)
        × Adds limits out.old out.new (map chars (texts_of groups text.now m)))) }
    ensures within { IfOk result (λ r. MatchOption r ⊤ (λ end. end ≤ length text.now)) }
    ensures many { IsErrOf result Stop.Selection → (m : Match) × (next_match true (matcher_pattern matcher.old) text.now after ≡ Some m)
        × (limits.items < out.old.count + length (texts_of groups text.now m)) }
    ensures output { result ≢ Err Stop.Output }
{
    let start = search_start(matcher, text, after);
    let Some(captures) = matcher.captures_at(text, start) else {
        return Ok(None);
    };
    add_match(alloc, &captures, groups, limits, out)?;
    Ok(Some(captures.get_match().end()))
}

/// Adds the texts of all matches.
pub fn add_matches(
    alloc: Global,
    matcher: &mut Matcher<'_>,
    text: &str,
    groups: usize,
    limits: Limits,
    out: &mut Found,
) -> Result<(), Stop>
    ensures same { OnOk result (matcher_pattern matcher.new ≡ matcher_pattern matcher.old) }
    ensures ok { OnOk result (Adds limits out.old out.new (map chars (match_texts (matcher_pattern matcher.old) groups text.now))) }
    ensures many { IsErrOf result Stop.Selection → limits.items < out.old.count + length (match_texts (matcher_pattern matcher.old) groups text.now) }
    ensures output { result ≢ Err Stop.Output }
{
    let mut after = 0;
    while let Some(end) = add_next(alloc, matcher, text, after, groups, limits, out)? {
        after = end + 1;
    }
    Ok(())
}

/// Adds what the pattern finds in a text.
fn add_found(
    alloc: Global,
    regex: &Regex,
    matcher: &mut Matcher<'_>,
    text: &str,
    limits: Limits,
    out: &mut Found,
) -> Result<(), Stop>
    requires built { IsBuilt (chars (regex_source regex.now)) regex.now }
    requires same { matcher_pattern matcher.old ≡ regex_pattern regex.now }
    ensures same { OnOk result (matcher_pattern matcher.new ≡ matcher_pattern matcher.old) }
    ensures ok { OnOk result (Adds limits out.old out.new (found_texts (chars (regex_source regex.now)) (chars text.now))) }
    ensures many { IsErrOf result Stop.Selection → limits.items < out.old.count + length (found_texts (chars (regex_source regex.now)) (chars text.now)) }
    ensures output { result ≢ Err Stop.Output }
{
    let groups = regex.captures_len();
    add_matches(alloc, matcher, text, groups, limits, out)?;
    Ok(())
}

/// The texts that a pattern finds in texts, joined in order. It is Selection where they are too many, else Output where
/// they have too many bytes together.
pub fn search_texts(
    alloc: Global,
    regex: &Regex,
    texts: &[Txt],
    limits: Limits,
) -> Result<Vec<Txt>, Stop>
    requires { IsBuilt (chars (regex_source regex.now)) regex.now }
    ensures texts { IfOk result (λ v. v.items ≡ flat_map (found_texts (chars (regex_source regex.now))) texts.now) }
    ensures few { IfOk result (λ v. length v.items ≤ limits.items) }
    ensures within { IfOk result (λ v. bytes_of v.items ≤ limits.bytes) }
    ensures many { IsErrOf result Stop.Selection → limits.items < length (flat_map (found_texts (chars (regex_source regex.now))) texts.now) }
    ensures over { IsErrOf result Stop.Output → (length (flat_map (found_texts (chars (regex_source regex.now))) texts.now) ≤ limits.items)
        × (limits.bytes < bytes_of (flat_map (found_texts (chars (regex_source regex.now))) texts.now)) }
{
    let mut matcher = regex.matcher(alloc)?;
    let mut found = Found::new(alloc);
    for text in texts {
        add_found(
            alloc,
            regex,
            &mut matcher,
            text.as_str(),
            limits,
            &mut found,
        )?;
    }
    if found.is_over {
        return Err(Stop::Output);
    }
    Ok(found.texts)
}
