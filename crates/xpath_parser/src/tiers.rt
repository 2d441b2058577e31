//! The levels of XPath 1.0, sections 3.3 to 3.5, from unions to `or`. Each level is read in a loop.

ghost use Rattle.std.specs.Prelude.{◌≡◌, true, ◌<◌, ◌≤◌, ◌+◌, ◌⊎◌, ◌∷◌, length, Some, map};
ghost use Rattle.xpath_parser.specs.Grammar as grammar;
ghost use Rattle.xpath_parser.specs.inner.Parsing.{Gives, Nests, with_front, mapped, joins_at, made_of};
ghost use Rattle.xpath_parser.specs.Reader as spec;

use crate::cursor::Cursor;
use crate::expression::{Expr, Operand};
use crate::grammar::Grammar;
use crate::pieces::{is_sign, joins, list_of, negated, operator};
use crate::refusal::Refusal;
use std::alloc::Global;
use text_base::{Boxed, Seq};

impl<F: Fn(Global, &mut Cursor<'_>, usize) -> Result<Expr, Refusal>> Grammar<F> {
    /// The operators above a tier of operands, each with the operand after it.
    #[cycle(tiers)]
    fn operands(&self, terms: &mut Cursor<'_>, tier: usize) -> Result<Seq<Operand>, Refusal>
        requires nests { Nests self.now.depth (F.pre self.now.nested) (F.post self.now.nested) }
        requires low { tier < 8 }
        ensures { Gives (mapped grammar.operand (spec.operators tier (spec.tier (spec.expr self.now.depth) tier) (length terms.old) terms.old)) result terms.new }
    {
        let mut found = Seq::new(self.alloc);
        for _turn in 0..terms.len() {
            let Some(term) = terms.peek() else {
                return Ok(found);
            };
            if !joins(Some(term), tier + 1) {
                return Ok(found);
            }
            let op = operator(term);
            terms.skip();
            let value = self.tier(terms, tier)?;
            found.push(Operand { op, value })?;
        }
        Ok(found)
    }

    /// The operands after such operators, after those that are there.
    #[cycle(tiers)]
    fn values(
        &self,
        terms: &mut Cursor<'_>,
        tier: usize,
        mut found: Seq<Expr>,
    ) -> Result<Seq<Expr>, Refusal>
        requires nests { Nests self.now.depth (F.pre self.now.nested) (F.post self.now.nested) }
        requires low { tier < 8 }
        ensures { Gives (with_front found (mapped (λ p. p.1) (spec.operators tier (spec.tier (spec.expr self.now.depth) tier) (length terms.old) terms.old))) result terms.new }
    {
        for _turn in 0..terms.len() {
            if !joins(terms.peek(), tier + 1) {
                return Ok(found);
            }
            terms.skip();
            let value = self.tier(terms, tier)?;
            found.push(value)?;
        }
        Ok(found)
    }

    /// Comparisons, sums or products, from the first operand on.
    #[cycle(tiers)]
    fn joined(&self, terms: &mut Cursor<'_>, tier: usize, first: Expr) -> Result<Expr, Refusal>
        requires nests { Nests self.now.depth (F.pre self.now.nested) (F.post self.now.nested) }
        requires low { 2 ≤ tier }
        requires high { tier ≤ 5 }
        requires operator { joins_at (tier + 1) (spec.peek terms.old) ≡ true }
        ensures { Gives (made_of tier first (spec.operators tier (spec.tier (spec.expr self.now.depth) tier) (length terms.old) terms.old)) result terms.new }
    {
        let first = Boxed::new(self.alloc, first)?;
        let more = self.operands(terms, tier)?;
        Ok(Expr::Joined(first, more))
    }

    /// A union, or operands of `and` or `or`, from the first on.
    #[cycle(tiers)]
    fn listed(&self, terms: &mut Cursor<'_>, tier: usize, first: Expr) -> Result<Expr, Refusal>
        requires nests { Nests self.now.depth (F.pre self.now.nested) (F.post self.now.nested) }
        requires tier { tier ≡ 0 ⊎ (tier ≡ 6 ⊎ tier ≡ 7) }
        requires operator { joins_at (tier + 1) (spec.peek terms.old) ≡ true }
        ensures { Gives (made_of tier first (spec.operators tier (spec.tier (spec.expr self.now.depth) tier) (length terms.old) terms.old)) result terms.new }
    {
        let mut found = Seq::new(self.alloc);
        found.push(first)?;
        let all = self.values(terms, tier, found)?;
        Ok(list_of(tier + 1, all))
    }

    /// Signs, and the operand after them.
    #[cycle(tiers)]
    fn signs(&self, terms: &mut Cursor<'_>) -> Result<Expr, Refusal>
        requires { Nests self.now.depth (F.pre self.now.nested) (F.post self.now.nested) }
        ensures { Gives (spec.signs (spec.tier (spec.expr self.now.depth) 1) terms.old) result terms.new }
    {
        let mut count = 0u32;
        for _turn in 0..terms.len() {
            if !is_sign(terms.peek()) {
                let operand = self.tier(terms, 1)?;
                return Ok(negated(self.alloc, count, operand)?);
            }
            terms.skip();
            count += 1;
        }
        Err(Refusal::Syntax)
    }

    /// An expression of a tier.
    #[cycle(tiers)]
    fn tier(&self, terms: &mut Cursor<'_>, tier: usize) -> Result<Expr, Refusal>
        requires nests { Nests self.now.depth (F.pre self.now.nested) (F.post self.now.nested) }
        requires low { tier ≤ 8 }
        ensures { Gives (spec.tier (spec.expr self.now.depth) tier terms.old) result terms.new }
    {
        if tier == 0 {
            return self.path(terms);
        }
        if tier == 2 {
            return self.signs(terms);
        }
        let first = self.tier(terms, tier - 1)?;
        if !joins(terms.peek(), tier) {
            return Ok(first);
        }
        if tier == 1 || tier >= 7 {
            self.listed(terms, tier - 1, first)
        } else {
            self.joined(terms, tier - 1, first)
        }
    }
}

/// An expression whose brackets nest fewer times than the number.
pub fn expr(alloc: Global, terms: &mut Cursor<'_>, depth: usize) -> Result<Expr, Refusal>
    ensures { Gives (spec.expr depth terms.old) result terms.new }
{
    if depth == 0 {
        return Err(Refusal::Syntax);
    }
    Grammar {
        alloc,
        depth: depth - 1,
        nested: expr,
    }
    .tier(terms, 8)
}
