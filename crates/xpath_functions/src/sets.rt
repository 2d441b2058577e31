//! Sets of borrowed texts.
ghost use Rattle.std.specs.Prelude.{◌≡◌, ℕ, List, ◌||◌, ◌&&◌, not, OnOk};
ghost use Rattle.std.specs.Str.{chars, bytes_eq};
ghost use Rattle.xpath_functions.specs.inner.Sets.{has_text};

use std::collections::BTreeSet;
use text_base::NoMemory;

/// Whether the set has the text.
pub fn has(set: &BTreeSet<&str>, text: &str) -> bool
    ensures { result ≡ has_text set.now (chars text.now) }
{
    set.contains(text)
}

/// Adds the text.
pub fn add<'a>(set: &mut BTreeSet<&'a str>, text: &'a str) -> Result<(), NoMemory>
    ensures { OnOk result ((q : List ℕ) → has_text set.new q ≡ (bytes_eq (chars text.now) q || has_text set.old q)) }
{
    set.insert(text)?;
    Ok(())
}

/// Takes the text out, and says whether it was there.
pub fn take_out(set: &mut BTreeSet<&str>, text: &str) -> bool
    ensures was { result ≡ has_text set.old (chars text.now) }
    ensures rest { (q : List ℕ) → has_text set.new q ≡ (not (bytes_eq (chars text.now) q) && has_text set.old q) }
{
    set.remove(text)
}
