ghost use Rattle.std.specs.Prelude.{◌≡◌, ◌<◌, ◌≤◌, length, IfSome};
ghost use Rattle.html_lexer.specs.Attributes.{IsAttrs, IsNextAttr};

use crate::tags::{AttrStep, attr_at};
use std::marker::Model;
use text_base::part;

/// Reads the attributes of a start tag, one by one.
#[derive(Drop)]
pub struct Attrs<'t> {
    attrs: &'t str,
    at: usize,
}

impl<'t> Model for Attrs<'t> {
    ghost use Rattle.std.specs.Prelude.{◌≤◌, length};
    ghost use Rattle.text_base.specs.Text.{IsPlace};
    ghost use Rattle.html_lexer.specs.State.{AttrReading};

    ghost Value = { AttrReading };

    ghost view = { λ a. record { text = a.attrs.now; at = a.at } };

    ghost invariant = { λ a. (a.at ≤ length a.attrs.now) × IsPlace a.attrs.now a.at };
}

impl<'t> Attrs<'t> {
    /// The attributes of a start tag, whose `attrs` these are, before the first.
    #[tactic(auto, using(text_base::proofs::Boundaries::at_start))]
    pub fn new(attrs: &'t str) -> Attrs<'t>
        requires { IsAttrs attrs.now }
        ensures { result ≡ record { text = attrs.now; at = 0 } }
    {
        Attrs { attrs, at: 0 }
    }

    /// The name and the value of the next attribute as they are written, or None after the last.
    /// References in the value are not decoded.
    pub fn next(&mut self) -> Option<(&'t str, &'t str)>
        ensures next { IsNextAttr self.old result self.new }
        ensures moves { IfSome result (λ _. self.old.at < self.new.at) }
        ensures within { self.new.at ≤ length self.old.text }
    {
        let attrs = self.attrs;
        match attr_at(attrs, self.at) {
            AttrStep::Reads(a) => {
                let name = part(attrs, a.name, a.name_to);
                let value = part(attrs, a.value, a.value_to);
                self.at = a.to;
                Some((name, value))
            }
            AttrStep::Closes {
                attrs_to: _,
                to: _,
                slash: _,
            } => None,
            AttrStep::Refuses(_) => None,
        }
    }
}
