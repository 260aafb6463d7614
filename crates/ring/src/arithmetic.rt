//! Sums and products of elements.
ghost use Rattle.std.specs.Prelude.{◌≡◌, ◌≤◌, unsigned_abs};
ghost use Rattle.ring.specs.Elements.{Mild, at, element, ops, value};
ghost use Rattle.ring.specs.declared.elements.Coordinates.TheVariants.{Two};

use super::admitted::Admitted;
use super::elements::{Coordinates, Element};

// The product of pairs with θ² = s + tθ.
fn product_two(s: i64, t: i64, a: Admitted, b: Admitted) -> Element
    requires s_small { unsigned_abs s ≤ 3 }
    requires t_small { unsigned_abs t ≤ 1 }
    ensures { result ≡ element (Two s t) ((ops (Two s t)).mul (value (Two s t) (at a.x a.y)) (value (Two s t) (at b.x b.y))) }
{
    let p = a.products(b);
    Element {
        x: p.xx + s * p.yy,
        y: p.xy + p.yx + t * p.yy,
    }
}

impl Coordinates {
    pub(super) fn sum(self, a: Admitted, b: Admitted) -> Element
        ensures { result ≡ element self ((ops self).add (value self (at a.x a.y)) (value self (at b.x b.y))) }
    {
        match self {
            Coordinates::One => Element::from(a.x + b.x),
            Coordinates::Two(_, _) => Element {
                x: a.x + b.x,
                y: a.y + b.y,
            },
        }
    }

    pub(super) fn product(self, a: Admitted, b: Admitted) -> Element
        requires { Mild self }
        ensures { result ≡ element self ((ops self).mul (value self (at a.x a.y)) (value self (at b.x b.y))) }
    {
        match self {
            Coordinates::One => Element::from(a.x * b.x),
            Coordinates::Two(s, t) => product_two(s, t, a, b),
        }
    }
}
