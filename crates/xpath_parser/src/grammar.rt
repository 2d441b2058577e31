//! The rules of XPath 1.0, sections 2 to 3.3, with what reads an expression in brackets as a parameter.

ghost use Rattle.std.specs.Prelude.{◌≡◌, [], length};
ghost use Rattle.doc_model.specs.declared.NodeTest.TheVariants as nt;
ghost use Rattle.xpath_parser.specs.Grammar.{step_of};
ghost use Rattle.xpath_parser.specs.inner.Parsing.{Gives, Nests, with_front};
ghost use Rattle.xpath_parser.specs.Reader as spec;

use crate::cursor::{
    CLOSE_ROUND, CLOSE_SQUARE, COMMA, Cursor, DOUBLE_COLON, DOUBLE_SLASH, OPEN_ROUND, OPEN_SQUARE,
    SLASH,
};
use crate::expression::{Expr, Func, Start, Step};
use crate::pieces::{
    any_below, begins_primary, begins_step, filtered, no_text, only_any_below, takes_literal,
    test_of_type,
};
use crate::refusal::Refusal;
use crate::term::{NodeType, Term};
use doc_model::{Axis, NodeTest};
use std::alloc::Global;
use text_base::{Boxed, Seq, Txt};

#[derive(Clone, Copy)]
pub struct Grammar<F> {
    pub alloc: Global,
    /// How often brackets may still nest.
    pub depth: usize,
    pub nested: F,
}

/// `()` after a node type, or what stands in them for `processing-instruction`.
fn of_type(terms: &mut Cursor<'_>, kind: NodeType) -> Result<NodeTest, Refusal>
    ensures { Gives (spec.of_type kind terms.old) result terms.new }
{
    terms.expect(OPEN_ROUND)?;
    if takes_literal(kind, terms.peek()) {
        terms.skip();
    }
    terms.expect(CLOSE_ROUND)?;
    Ok(test_of_type(kind))
}

fn node_test(alloc: Global, terms: &mut Cursor<'_>) -> Result<NodeTest, Refusal>
    ensures { Gives (spec.test terms.old) result terms.new }
{
    match terms.peek() {
        Some(Term::AnyName) => {
            terms.skip();
            Ok(NodeTest::AnyName)
        }
        Some(Term::Name(name)) => {
            terms.skip();
            Ok(NodeTest::Name(Txt::of(alloc, name.as_str())?))
        }
        Some(Term::Prefixed) => {
            terms.skip();
            Ok(NodeTest::AnyName)
        }
        Some(Term::NodeType(kind)) => {
            let kind = *kind;
            terms.skip();
            of_type(terms, kind)
        }
        _ => Err(Refusal::Syntax),
    }
}

impl<F: Fn(Global, &mut Cursor<'_>, usize) -> Result<Expr, Refusal>> Grammar<F> {
    fn inner(&self, terms: &mut Cursor<'_>) -> Result<Expr, Refusal>
        requires { Nests self.now.depth (F.pre self.now.nested) (F.post self.now.nested) }
        ensures { Gives (spec.expr self.now.depth terms.old) result terms.new }
    {
        (self.nested)(self.alloc, terms, self.depth)
    }

    fn predicates(&self, terms: &mut Cursor<'_>) -> Result<Seq<Expr>, Refusal>
        requires { Nests self.now.depth (F.pre self.now.nested) (F.post self.now.nested) }
        ensures { Gives (spec.preds (spec.expr self.now.depth) (length terms.old) terms.old) result terms.new }
    {
        let mut found = Seq::new(self.alloc);
        for _turn in 0..terms.len() {
            if !terms.sees(OPEN_SQUARE) {
                return Ok(found);
            }
            terms.skip();
            let next = self.inner(terms)?;
            terms.expect(CLOSE_SQUARE)?;
            found.push(next)?;
        }
        Ok(found)
    }

    /// A node test and its predicates, on an axis.
    fn tested(&self, terms: &mut Cursor<'_>, axis: Axis) -> Result<Step, Refusal>
        requires { Nests self.now.depth (F.pre self.now.nested) (F.post self.now.nested) }
        ensures { Gives (spec.tested (spec.expr self.now.depth) axis terms.old) result terms.new }
    {
        Ok(Step {
            axis,
            test: node_test(self.alloc, terms)?,
            predicates: self.predicates(terms)?,
        })
    }

    /// A step that takes all nodes of an axis.
    fn plain_step(&self, axis: Axis) -> Step
        ensures { result ≡ step_of axis nt.Node [] }
    {
        Step {
            axis,
            test: NodeTest::Node,
            predicates: Seq::new(self.alloc),
        }
    }

    fn step(&self, terms: &mut Cursor<'_>) -> Result<Step, Refusal>
        requires { Nests self.now.depth (F.pre self.now.nested) (F.post self.now.nested) }
        ensures { Gives (spec.step (spec.expr self.now.depth) terms.old) result terms.new }
    {
        match terms.peek() {
            Some(Term::Dot) => {
                terms.skip();
                Ok(self.plain_step(Axis::OwnSelf))
            }
            Some(Term::DotDot) => {
                terms.skip();
                Ok(self.plain_step(Axis::Parent))
            }
            Some(Term::At) => {
                terms.skip();
                self.tested(terms, Axis::Attribute)
            }
            Some(Term::Axis(axis)) => {
                let axis = *axis;
                terms.skip();
                terms.expect(DOUBLE_COLON)?;
                self.tested(terms, axis)
            }
            _ => self.tested(terms, Axis::Child),
        }
    }

    /// What stands in round brackets.
    fn round(&self, terms: &mut Cursor<'_>) -> Result<Expr, Refusal>
        requires { Nests self.now.depth (F.pre self.now.nested) (F.post self.now.nested) }
        ensures { Gives (spec.round (spec.expr self.now.depth) terms.old) result terms.new }
    {
        let found = self.inner(terms)?;
        terms.expect(CLOSE_ROUND)?;
        Ok(found)
    }

    fn arguments(&self, terms: &mut Cursor<'_>) -> Result<Seq<Expr>, Refusal>
        requires { Nests self.now.depth (F.pre self.now.nested) (F.post self.now.nested) }
        ensures { Gives (spec.args (spec.expr self.now.depth) (length terms.old) terms.old) result terms.new }
    {
        let mut found = Seq::new(self.alloc);
        for _turn in 0..terms.len() {
            let next = self.inner(terms)?;
            found.push(next)?;
            if !terms.sees(COMMA) {
                return Ok(found);
            }
            terms.skip();
        }
        Err(Refusal::Syntax)
    }

    /// A function's arguments and the bracket after them.
    fn call(&self, terms: &mut Cursor<'_>, function: Func) -> Result<Expr, Refusal>
        requires { Nests self.now.depth (F.pre self.now.nested) (F.post self.now.nested) }
        ensures { Gives (spec.call (spec.expr self.now.depth) function terms.old) result terms.new }
    {
        if terms.sees(CLOSE_ROUND) {
            terms.skip();
            return Ok(Expr::Call(function, Seq::new(self.alloc)));
        }
        let found = self.arguments(terms)?;
        terms.expect(CLOSE_ROUND)?;
        Ok(Expr::Call(function, found))
    }

    fn function(&self, terms: &mut Cursor<'_>, function: Func) -> Result<Expr, Refusal>
        requires { Nests self.now.depth (F.pre self.now.nested) (F.post self.now.nested) }
        ensures { Gives (spec.function (spec.expr self.now.depth) function terms.old) result terms.new }
    {
        terms.expect(OPEN_ROUND)?;
        self.call(terms, function)
    }

    fn primary(&self, terms: &mut Cursor<'_>) -> Result<Expr, Refusal>
        requires { Nests self.now.depth (F.pre self.now.nested) (F.post self.now.nested) }
        ensures { Gives (spec.primary (spec.expr self.now.depth) terms.old) result terms.new }
    {
        match terms.peek() {
            Some(Term::Literal(text)) => {
                terms.skip();
                Ok(Expr::Literal(Txt::of(self.alloc, text.as_str())?))
            }
            Some(Term::Variable) => {
                terms.skip();
                Ok(Expr::Literal(no_text(self.alloc)))
            }
            Some(Term::Number(n)) => {
                let n = *n;
                terms.skip();
                Ok(Expr::Number(n))
            }
            Some(Term::Fraction | Term::TooLarge) => {
                terms.skip();
                Ok(Expr::Number(0))
            }
            Some(Term::OpenRound) => {
                terms.skip();
                self.round(terms)
            }
            Some(Term::Function(function)) => {
                let function = *function;
                terms.skip();
                self.function(terms, function)
            }
            Some(Term::UnknownFunction) => {
                terms.skip();
                self.function(terms, Func::Last)
            }
            _ => Err(Refusal::Syntax),
        }
    }

    /// The steps of a path, after those that are there.
    fn steps(&self, terms: &mut Cursor<'_>, mut found: Seq<Step>) -> Result<Seq<Step>, Refusal>
        requires { Nests self.now.depth (F.pre self.now.nested) (F.post self.now.nested) }
        ensures { Gives (with_front found (spec.steps (spec.expr self.now.depth) (length terms.old) terms.old)) result terms.new }
    {
        for _turn in 0..terms.len() {
            let next = self.step(terms)?;
            found.push(next)?;
            if terms.sees(SLASH) {
                terms.skip();
            } else if terms.sees(DOUBLE_SLASH) {
                terms.skip();
                found.push(any_below(self.alloc))?;
            } else {
                return Ok(found);
            }
        }
        Err(Refusal::Syntax)
    }

    fn relative(
        &self,
        terms: &mut Cursor<'_>,
        start: Start,
        before: Seq<Step>,
    ) -> Result<Expr, Refusal>
        requires { Nests self.now.depth (F.pre self.now.nested) (F.post self.now.nested) }
        ensures { Gives (spec.relative (spec.expr self.now.depth) start before terms.old) result terms.new }
    {
        Ok(Expr::Path(start, self.steps(terms, before)?))
    }

    fn after_root(&self, terms: &mut Cursor<'_>) -> Result<Expr, Refusal>
        requires { Nests self.now.depth (F.pre self.now.nested) (F.post self.now.nested) }
        ensures { Gives (spec.after_root (spec.expr self.now.depth) terms.old) result terms.new }
    {
        let none = Seq::new(self.alloc);
        if begins_step(terms.peek()) {
            self.relative(terms, Start::Root, none)
        } else {
            Ok(Expr::Path(Start::Root, none))
        }
    }

    fn after_filter(&self, terms: &mut Cursor<'_>, filter: Expr) -> Result<Expr, Refusal>
        requires { Nests self.now.depth (F.pre self.now.nested) (F.post self.now.nested) }
        ensures { Gives (spec.after_filter (spec.expr self.now.depth) filter terms.old) result terms.new }
    {
        if terms.sees(SLASH) {
            terms.skip();
            let from = Start::From(Boxed::new(self.alloc, filter)?);
            return self.relative(terms, from, Seq::new(self.alloc));
        }
        if terms.sees(DOUBLE_SLASH) {
            terms.skip();
            let from = Start::From(Boxed::new(self.alloc, filter)?);
            let before = only_any_below(self.alloc)?;
            return self.relative(terms, from, before);
        }
        Ok(filter)
    }

    fn filtered_path(&self, terms: &mut Cursor<'_>) -> Result<Expr, Refusal>
        requires { Nests self.now.depth (F.pre self.now.nested) (F.post self.now.nested) }
        ensures { Gives (spec.filtered_path (spec.expr self.now.depth) terms.old) result terms.new }
    {
        let found = self.primary(terms)?;
        let predicates = self.predicates(terms)?;
        let filter = filtered(self.alloc, found, predicates)?;
        self.after_filter(terms, filter)
    }

    /// A location path, or a filter and the path after it.
    pub fn path(&self, terms: &mut Cursor<'_>) -> Result<Expr, Refusal>
        requires { Nests self.now.depth (F.pre self.now.nested) (F.post self.now.nested) }
        ensures { Gives (spec.path (spec.expr self.now.depth) terms.old) result terms.new }
    {
        if terms.sees(SLASH) {
            terms.skip();
            return self.after_root(terms);
        }
        if terms.sees(DOUBLE_SLASH) {
            terms.skip();
            let before = only_any_below(self.alloc)?;
            return self.relative(terms, Start::Root, before);
        }
        if begins_primary(terms.peek()) {
            self.filtered_path(terms)
        } else {
            self.relative(terms, Start::Here, Seq::new(self.alloc))
        }
    }
}
