//! Norms and sectors of elements.
ghost use Rattle.std.specs.Prelude.{◌≡◌, ◌*◌, ◌^◌, ◌≤◌, negsuc, IfOk, unsigned_abs};
ghost use Rattle.algebra.specs.Integers.{ℤ_ops};
ghost use Rattle.algebra.specs.Quadratic.{norm_form};
ghost use Rattle.planes.specs.Planes.{norm, pair, plane, sector, trace};
ghost use Rattle.ring.specs.Answers.{one_check};
ghost use Rattle.ring.specs.Elements.{passed};

use planes::Plane;
use refusal::Refusal;
use ring::{Admitted, Element};

// The plane stands beside the element here and in `canonical`: in a struct of the two, each call would have to show that
// the plane in it is the one that it was called with, or the struct would be made and taken apart at once.

/// Refuses an element with a coordinate out of the limits of a ring's calls.
pub(super) fn admit(p: Plane, e: Element) -> Result<Admitted, Refusal>
    ensures check { passed result ≡ one_check (plane p) e }
    ensures same { IfOk result (λ a. pair a.x a.y ≡ pair e.x e.y) }
{
    p.axes().admit(e)
}

/// x² + y², or x² − xy + y².
fn form_of(p: Plane, e: Admitted) -> i64
    ensures value { result ≡ norm_form ℤ_ops (negsuc 0) (trace p) (pair e.x e.y) }
    ensures bound { unsigned_abs result ≤ 3 * 2 ^ 60 }
{
    let products = e.products(e);
    let squares = products.xx + products.yy;
    match p {
        Plane::Square => squares,
        Plane::Hexagonal => squares - products.xy,
    }
}

pub(super) fn norm_of(p: Plane, e: Admitted) -> u64
    ensures value { result ≡ norm p (pair e.x e.y) }
    ensures bound { result ≤ 3 * 2 ^ 60 }
{
    form_of(p, e).unsigned_abs()
}

/// Whether the element lies in the sector of the canonical elements other than 0.
pub(super) fn in_sector(p: Plane, e: Element) -> bool
    ensures { result ≡ sector p (pair e.x e.y) }
{
    match p {
        Plane::Square => 0 < e.x && 0 <= e.y,
        Plane::Hexagonal => 0 <= e.y && e.y < e.x,
    }
}
