//! The names of XPath 1.0, sections 2.2, 2.3, 3.3 to 3.5 and 4.
ghost use Rattle.std.specs.Prelude.{◌≡◌, map};
ghost use Rattle.text_base.specs.Names.{named_in};
ghost use Rattle.xpath_parser.specs.Terms.{axis_names, node_type_names, function_names, operator_names};
ghost use Rattle.xpath_parser.specs.inner.Names.{entry};

use crate::expression::Func;
use crate::term::NodeType;
use doc_model::Axis;

static AXES: [(&str, Axis); 13] = [
    ("child", Axis::Child),
    ("descendant", Axis::Descendant),
    ("parent", Axis::Parent),
    ("ancestor", Axis::Ancestor),
    ("following-sibling", Axis::FollowingSibling),
    ("preceding-sibling", Axis::PrecedingSibling),
    ("following", Axis::Following),
    ("preceding", Axis::Preceding),
    ("attribute", Axis::Attribute),
    ("namespace", Axis::Namespace),
    ("self", Axis::OwnSelf),
    ("descendant-or-self", Axis::DescendantOrSelf),
    ("ancestor-or-self", Axis::AncestorOrSelf),
];

static NODE_TYPES: [(&str, NodeType); 4] = [
    ("node", NodeType::Node),
    ("text", NodeType::Text),
    ("comment", NodeType::Comment),
    ("processing-instruction", NodeType::Instruction),
];

static FUNCTIONS: [(&str, Func); 27] = [
    ("last", Func::Last),
    ("position", Func::Position),
    ("count", Func::Count),
    ("id", Func::Id),
    ("local-name", Func::LocalName),
    ("namespace-uri", Func::NamespaceUri),
    ("name", Func::Name),
    ("string", Func::Str),
    ("concat", Func::Concat),
    ("starts-with", Func::StartsWith),
    ("contains", Func::Contains),
    ("substring-before", Func::SubstringBefore),
    ("substring-after", Func::SubstringAfter),
    ("substring", Func::Substring),
    ("string-length", Func::StringLength),
    ("normalize-space", Func::NormalizeSpace),
    ("translate", Func::Translate),
    ("boolean", Func::Boolean),
    ("not", Func::Not),
    ("true", Func::True),
    ("false", Func::False),
    ("lang", Func::Lang),
    ("number", Func::Number),
    ("sum", Func::Sum),
    ("floor", Func::Floor),
    ("ceiling", Func::Ceiling),
    ("round", Func::Round),
];

/// What a name stands for in a table.
fn named<T: Copy>(table: &[(&str, T)], name: &str) -> Option<T>
    ensures { result ≡ named_in (map entry table.now) name.now }
{
    for row in table {
        if name == row.0 {
            return Some(row.1);
        }
    }
    None
}

#[tactic(auto, unfolding(crate::specs::Terms::axis_names))]
pub fn axis_named(name: &str) -> Option<Axis>
    ensures { result ≡ named_in axis_names name.now }
{
    named(&AXES, name)
}

#[tactic(auto, unfolding(crate::specs::Terms::node_type_names))]
pub fn node_type_named(name: &str) -> Option<NodeType>
    ensures { result ≡ named_in node_type_names name.now }
{
    named(&NODE_TYPES, name)
}

#[tactic(auto, unfolding(crate::specs::Terms::function_names))]
pub fn function_named(name: &str) -> Option<Func>
    ensures { result ≡ named_in function_names name.now }
{
    named(&FUNCTIONS, name)
}
