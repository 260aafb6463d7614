//! Calls on a ring with their arguments, and what they give.
use ideal::{congruent, gcd};
use refusal::Refusal;
use ring::{Coordinates, Division, Element, Ring};
use std::fmt;

/// An element as the tables write it and a line shows it.
// A type of its own: the tables need a short form, and texts show an element in another way.
#[derive(Clone, Copy)]
pub struct Point(pub i64, pub i64);

impl From<Point> for Element {
    fn from(Point(x, y): Point) -> Element {
        Element { x, y }
    }
}

impl From<Element> for Point {
    fn from(e: Element) -> Point {
        Point(e.x, e.y)
    }
}

impl fmt::Display for Point {
    fn fmt<W: fmt::Write>(&self, f: &mut fmt::Formatter<W>) -> fmt::Result {
        let Point(x, y) = *self;
        write!(f, "({x}, {y})")
    }
}

/// A call of a ring, or of a function over every ring.
#[derive(Clone, Copy)]
pub enum Call {
    Coordinates,
    Sum(Point, Point),
    Product(Point, Point),
    Norm(Point),
    IsUnit(Point),
    CanonicalAssociate(Point),
    Divide(Point, Point),
    Residue(Point, Point),
    CanonicalCount(u64),
    CanonicalElement(u64, u64),
    CanonicalNumber(Point),
    ResidueElement(Point, u64),
    ResidueNumber(Point, Point),
    Gcd(Point, Point),
    Congruent(Point, Point, Point),
}

impl fmt::Display for Call {
    fn fmt<W: fmt::Write>(&self, f: &mut fmt::Formatter<W>) -> fmt::Result {
        match *self {
            Call::Coordinates => write!(f, "coordinates"),
            Call::Sum(a, b) => write!(f, "sum {a} {b}"),
            Call::Product(a, b) => write!(f, "product {a} {b}"),
            Call::Norm(a) => write!(f, "norm {a}"),
            Call::IsUnit(a) => write!(f, "is_unit {a}"),
            Call::CanonicalAssociate(a) => write!(f, "canonical_associate {a}"),
            Call::Divide(a, b) => write!(f, "divide {a} {b}"),
            Call::Residue(a, m) => write!(f, "residue {a} {m}"),
            Call::CanonicalCount(n) => write!(f, "canonical_count {n}"),
            Call::CanonicalElement(n, i) => write!(f, "canonical_element {n} {i}"),
            Call::CanonicalNumber(a) => write!(f, "canonical_number {a}"),
            Call::ResidueElement(m, i) => write!(f, "residue_element {m} {i}"),
            Call::ResidueNumber(m, a) => write!(f, "residue_number {m} {a}"),
            Call::Gcd(a, b) => write!(f, "gcd {a} {b}"),
            Call::Congruent(a, b, m) => write!(f, "congruent {a} {b} {m}"),
        }
    }
}

/// What a call gives.
#[derive(Clone, Copy)]
pub enum Answer {
    Axes(Coordinates),
    Value(Element),
    Number(u64),
    Truth(bool),
    /// A division, and whether the remainder's norm is below the divisor's, if the ring tells that norm.
    Quotient(Division, Option<bool>),
}

impl fmt::Display for Answer {
    fn fmt<W: fmt::Write>(&self, f: &mut fmt::Formatter<W>) -> fmt::Result {
        match *self {
            Answer::Axes(Coordinates::One) => write!(f, "one"),
            Answer::Axes(Coordinates::Two(a, b)) => write!(f, "two with {a} and {b}"),
            Answer::Value(e) => write!(f, "{}", Point::from(e)),
            Answer::Number(n) => write!(f, "{n}"),
            Answer::Truth(t) => write!(f, "{t}"),
            Answer::Quotient(d, smaller) => {
                let q = Point::from(d.quotient);
                let r = Point::from(d.remainder);
                match smaller {
                    Some(s) => write!(f, "q {q} r {r} smaller {s}"),
                    None => write!(f, "q {q} r {r} out of limits"),
                }
            }
        }
    }
}

fn divided<R: Ring>(ring: &R, a: Element, b: Element) -> Result<Answer, Refusal> {
    let d = ring.divide(a, b)?;
    let size = ring.norm(b)?;
    // A remainder may be too large to be passed on, and that is no refusal of the division.
    let smaller = ring.norm(d.remainder).ok().map(|rest| rest < size);
    Ok(Answer::Quotient(d, smaller))
}

/// What the ring gives.
// A call is an enum, since a closure could not print its arguments.
pub fn ask<R: Ring>(ring: &R, call: Call) -> Result<Answer, Refusal> {
    match call {
        Call::Coordinates => Ok(Answer::Axes(ring.coordinates())),
        Call::Sum(a, b) => ring.sum(a.into(), b.into()).map(Answer::Value),
        Call::Product(a, b) => ring.product(a.into(), b.into()).map(Answer::Value),
        Call::Norm(a) => ring.norm(a.into()).map(Answer::Number),
        Call::IsUnit(a) => ring.is_unit(a.into()).map(Answer::Truth),
        Call::CanonicalAssociate(a) => ring.canonical_associate(a.into()).map(Answer::Value),
        Call::Divide(a, b) => divided(ring, a.into(), b.into()),
        Call::Residue(a, m) => ring.residue(a.into(), m.into()).map(Answer::Value),
        Call::CanonicalCount(n) => ring.canonical_count(n).map(Answer::Number),
        Call::CanonicalElement(n, i) => ring.canonical_element(n, i).map(Answer::Value),
        Call::CanonicalNumber(a) => ring.canonical_number(a.into()).map(Answer::Number),
        Call::ResidueElement(m, i) => ring.residue_element(m.into(), i).map(Answer::Value),
        Call::ResidueNumber(m, a) => ring.residue_number(m.into(), a.into()).map(Answer::Number),
        Call::Gcd(a, b) => gcd(ring, a.into(), b.into()).map(Answer::Value),
        Call::Congruent(a, b, m) => {
            congruent(ring, a.into(), b.into(), m.into()).map(Answer::Truth)
        }
    }
}
