//! Bases of the multiples of a modulus.
ghost use Rattle.std.specs.Prelude.{◌≡◌, ◌*◌, ◌^◌, ◌<◌, ◌≤◌, unsigned_abs};

/// The multiples of a modulus are the sums of multiples of step + content·θ and of width.
#[derive(Clone, Copy)]
pub(super) struct Basis {
    pub(super) step: i64,
    pub(super) content: u64,
    pub(super) width: u64,
    pub(super) norm: u64,
    ghost step_bound: { unsigned_abs step ≤ 2 ^ 62 },
    ghost content_some: { 0 < content },
    ghost content_bound: { content ≤ 2 ^ 30 },
    ghost width_some: { 0 < width },
    ghost product: { norm ≡ content * width },
    ghost few: { norm ≤ 3 * 2 ^ 60 },
}
