//! Elements by which a plane divides.
ghost use Rattle.std.specs.Prelude.{◌≡◌, ◌*◌, ◌^◌, ◌<◌, ◌≤◌, ◌↔◌, true, IfOk, IfSome, IsNone};
ghost use Rattle.planes.specs.Planes.{norm as norm_in, pair, plane as plane_of, sector};
ghost use Rattle.ring.specs.Answers.{modulus_check};
ghost use Rattle.ring.specs.Elements.{at, passed};

use super::norms::{in_sector, norm_of};
use planes::Plane;
use refusal::{Cause, Refusal};
use ring::Admitted;

/// An element of a plane other than 0, with its norm.
#[derive(Clone, Copy)]
pub(super) struct Divisor {
    pub(super) plane: Plane,
    pub(super) element: Admitted,
    pub(super) norm: u64,
    ghost norm_is: { norm ≡ norm_in plane (pair element.x element.y) },
    ghost some: { 0 < norm },
    ghost few: { norm ≤ 3 * 2 ^ 60 },
}

impl Divisor {
    /// The element, unless it is 0.
    pub(super) fn of(plane: Plane, element: Admitted) -> Option<Divisor>
        ensures none { IsNone result ↔ (norm_in plane (pair element.x element.y) ≡ 0) }
        ensures plane { IfSome result (λ d. d.plane ≡ plane) }
        ensures element { IfSome result (λ d. d.element ≡ element) }
    {
        let norm = norm_of(plane, element);
        if norm == 0 {
            return None;
        }
        Some(Divisor {
            plane,
            element,
            norm,
        })
    }
}

/// A canonical divisor, by which residues are taken.
#[derive(Clone, Copy)]
pub(super) struct Modulus {
    pub(super) divisor: Divisor,
    ghost inside: { sector divisor.plane (pair divisor.element.x divisor.element.y) ≡ true },
}

impl Modulus {
    /// Refuses an element that is 0 or not canonical.
    pub(super) fn of(plane: Plane, element: Admitted) -> Result<Modulus, Refusal>
        ensures check { passed result ≡ modulus_check (plane_of plane) (at element.x element.y) }
        ensures plane { IfOk result (λ m. m.divisor.plane ≡ plane) }
        ensures element { IfOk result (λ m. m.divisor.element ≡ element) }
    {
        if !in_sector(plane, element.into()) {
            return Err(Cause::Modulus.into());
        }
        Ok(Modulus {
            divisor: Divisor {
                plane,
                element,
                norm: norm_of(plane, element),
            },
        })
    }
}
