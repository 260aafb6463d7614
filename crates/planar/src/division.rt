//! Division by rounding to the nearest element.
ghost use Rattle.std.specs.Prelude.{◌≡◌, ◌*◌, ◌^◌, ◌≤◌, ◌-ℤ◌, ◌*ℤ◌, unsigned_abs};
ghost use Rattle.planar.specs.Division.{Divided};
ghost use Rattle.planes.specs.Planes.{Nearest, left_over, over, pair, plane as plane_of};
ghost use Rattle.ring.specs.Elements.{Within, at};

use super::divisor::Divisor;
use planes::Plane;
use ring::{Admitted, Division, Element};

/// A product that needs more than 64 bits.
// Rounded quotients, coordinates of rows and of elements have the limit 2^62 in common, forms and quotients before rounding
// 3·2^60: types for these limits would be made and taken apart at each call.
pub(super) fn wide_times(a: i64, b: i64) -> i128
    requires a_small { unsigned_abs a ≤ 2 ^ 62 }
    requires b_small { unsigned_abs b ≤ 2 ^ 62 }
    ensures value { result ≡ a *ℤ b }
    ensures bound { unsigned_abs result ≤ 2 ^ 124 }
{
    i128::from(a) * i128::from(b)
}

/// a without (x, y), where little is left.
fn less(a: Admitted, x: i128, y: i128) -> Element
    requires x_small { unsigned_abs x ≤ 2 ^ 125 }
    requires y_small { unsigned_abs y ≤ 3 * 2 ^ 124 }
    requires little_x { unsigned_abs (a.x -ℤ x) ≤ 2 ^ 62 }
    requires little_y { unsigned_abs (a.y -ℤ y) ≤ 2 ^ 62 }
    ensures { pair result.x result.y ≡ pair (a.x -ℤ x) (a.y -ℤ y) }
{
    Element {
        x: (i128::from(a.x) - x) as i64,
        y: (i128::from(a.y) - y) as i64,
    }
}

impl Divisor {
    /// a times the conjugate of the divisor: the quotient times the divisor's norm.
    fn over(self, a: Admitted) -> Element
        ensures value { pair result.x result.y ≡ over self.plane (pair a.x a.y) (pair self.element.x self.element.y) }
        ensures bound { Within (3 * 2 ^ 60) result }
    {
        let products = a.products(self.element);
        let straight = products.xx + products.yy;
        let y = products.yx - products.xy;
        match self.plane {
            Plane::Square => Element { x: straight, y },
            Plane::Hexagonal => Element {
                x: straight - products.xy,
                y,
            },
        }
    }

    /// The whole number nearest to z / norm.
    fn nearest(self, z: i64) -> i64
        requires { unsigned_abs z ≤ 3 * 2 ^ 60 }
        ensures value { Nearest z self.norm result }
        ensures bound { unsigned_abs result ≤ 2 ^ 62 }
    {
        let n = self.norm as i64;
        let below = z.div_euclid(n);
        let rest = z.rem_euclid(n);
        if rest > n - rest { below + 1 } else { below }
    }

    /// The nearest quotient.
    fn quotient(self, a: Admitted) -> Element
        ensures x { Nearest (over self.plane (pair a.x a.y) (pair self.element.x self.element.y)).re self.norm result.x }
        ensures y { Nearest (over self.plane (pair a.x a.y) (pair self.element.x self.element.y)).im self.norm result.y }
        ensures bound { Within (2 ^ 62) result }
    {
        let over = self.over(a);
        Element {
            x: self.nearest(over.x),
            y: self.nearest(over.y),
        }
    }

    /// What is left of a without q times the divisor, where it is known to be small.
    fn left_over(self, a: Admitted, q: Element) -> Element
        requires q_small { Within (2 ^ 62) q }
        requires little_left { Within (2 ^ 62) (at (left_over self.plane (pair a.x a.y) (pair self.element.x self.element.y) (pair q.x q.y)).re (left_over self.plane (pair a.x a.y) (pair self.element.x self.element.y) (pair q.x q.y)).im) }
        ensures { pair result.x result.y ≡ left_over self.plane (pair a.x a.y) (pair self.element.x self.element.y) (pair q.x q.y) }
    {
        let b = self.element;
        let square = wide_times(q.y, b.y);
        let x = wide_times(q.x, b.x) - square;
        let cross = wide_times(q.x, b.y) + wide_times(q.y, b.x);
        match self.plane {
            Plane::Square => less(a, x, cross),
            Plane::Hexagonal => less(a, x, cross - square),
        }
    }

    /// The nearest quotient, and the remainder that it leaves.
    pub(super) fn divide(self, a: Admitted) -> Division
        ensures { Divided (plane_of self.plane) (at a.x a.y) (at self.element.x self.element.y) result }
    {
        let quotient = self.quotient(a);
        Division {
            quotient,
            remainder: self.left_over(a, quotient),
        }
    }
}
