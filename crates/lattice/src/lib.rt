//! Sublattices as sets of vectors, and their Hermite forms, over every ring that keeps the laws and in every rank.
//!
//! This crate holds theorems: each function stands for the one that its contract names.
#![tactic(auto)]

ghost use Rattle.lattice.specs.Statements.{DeterminantsFill, FormsAreUnique, FormsExist, IndexIsNorm, SitesAreCounted, VectorsReduce};

/// Every sublattice of full rank that columns generate has a Hermite form.
pub fn forms_exist<C>()
    ensures { FormsExist C }
{}

/// In ranks 1 to 3, columns whose determinant is not 0 generate a sublattice of full rank.
pub fn determinants_fill<C>()
    ensures { DeterminantsFill C }
{}

/// Two Hermite forms with the same vectors are equal.
pub fn forms_are_unique<C>()
    ensures { FormsAreUnique C }
{}

/// In ranks 1 to 3, the index of the Hermite form of a matrix is the norm of its determinant.
pub fn index_is_norm<C>()
    ensures { IndexIsNorm C }
{}

/// Modulo a Hermite form every vector is congruent to exactly one reduced vector.
pub fn vectors_reduce<C>()
    ensures { VectorsReduce C }
{}

/// The reduced vectors modulo a Hermite form are as many as its index.
pub fn sites_are_counted<C>()
    ensures { SitesAreCounted C }
{}
