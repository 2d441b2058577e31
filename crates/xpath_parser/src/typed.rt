ghost use Rattle.std.specs.Prelude.{◌≡◌};
ghost use Rattle.xpath_parser.specs.Reading.{IsReadable};
ghost use Rattle.xpath_parser.specs.Shapes.{shape_of};

use crate::expression::Expr;
use xpath_values::Shape;

/// An expression that some text reads as, so that its types are right, and its shape.
#[derive(Debug, Drop)]
pub struct Typed {
    expr: Expr,
    shape: Shape,
    pub ghost readable: { ∥ IsReadable expr ∥₁ },
    pub ghost shaped: { shape ≡ shape_of expr },
}

impl Typed {
    ghost use Rattle.xpath_parser.specs.Typed.{expression};

    /// The expression of the pair.
    pub(crate) fn new(expr: Expr, shape: Shape) -> Typed
        requires readable { ∥ IsReadable expr ∥₁ }
        requires shaped { shape ≡ shape_of expr }
        ensures { expression result ≡ expr }
    {
        Typed { expr, shape }
    }

    /// The expression.
    pub fn expr(&self) -> &Expr
        ensures { result.now ≡ expression self.now }
    {
        &self.expr
    }

    /// Whether the expression gives nodes, a string, a number or a boolean.
    pub fn shape(&self) -> Shape
        ensures { result ≡ shape_of (expression self.now) }
    {
        self.shape
    }
}
