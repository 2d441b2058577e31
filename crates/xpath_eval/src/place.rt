ghost use Rattle.std.specs.Prelude.{◌≡◌};

/// Where an expression is evaluated, XPath 1.0, section 1: the context row, its position, from 1, and the context size.
#[derive(Clone, Copy, Debug)]
pub struct Place {
    pub row: u32,
    pub position: u32,
    pub size: u32,
}

/// A row alone, at position 1 of a context of size 1.
pub fn alone(row: u32) -> Place
    ensures { result ≡ record { row = row; position = 1; size = 1 } }
{
    Place {
        row,
        position: 1,
        size: 1,
    }
}
