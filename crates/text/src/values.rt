//! Numbers, coordinates and elements as a text writes them.
ghost use Rattle.std.specs.Prelude.{◌≡◌, ◌^◌, ◌<◌, ◌≤◌, length, IfOk};
ghost use Rattle.text.specs.Values.{coordinate_answer, digits_answer, element_answer, number_answer};

use super::parts::cut;
use refusal::Cause;
use ring::{Coordinates, Element};

// Functions and no `TryFrom`: what they make are numbers, types of the library, and an element depends on its ring too.

/// The most digits of a number.
const DIGITS: usize = 15;

// The number that digits write, whatever the first one is. The library's `parse` takes text, which bytes need not be, and a `+`.
fn digits(bytes: &[u8]) -> Result<u64, Cause>
    requires { length bytes.now ≤ 15 }
    ensures { result ≡ digits_answer bytes.now }
{
    let mut n: u64 = 0;
    for byte in bytes {
        if !byte.is_ascii_digit() {
            return Err(Cause::Value);
        }
        n = n * 10 + u64::from(*byte - b'0');
    }
    Ok(n)
}

/// A number has 1 to 15 digits, of which the first is 0 only if it is the only one.
pub fn number(bytes: &[u8]) -> Result<u64, Cause>
    ensures value { result ≡ number_answer bytes.now }
    ensures bound { IfOk result (λ n. n < 10 ^ 15) }
{
    match bytes {
        [] | [b'0', _, ..] => Err(Cause::Value),
        _ if bytes.len() > DIGITS => Err(Cause::Value),
        _ => digits(bytes),
    }
}

/// A coordinate is a number, or `-` and a number that is not 0.
pub fn coordinate(bytes: &[u8]) -> Result<i64, Cause>
    ensures { result ≡ coordinate_answer bytes.now }
{
    match bytes {
        [b'-', digits @ ..] => match number(digits)? {
            0 => Err(Cause::Value),
            n => Ok(-(n as i64)),
        },
        _ => Ok(number(bytes)? as i64),
    }
}

/// An element is `x` in a ring with one coordinate, and `x:y` in a ring with two.
// Two parameters, here and in reading a matrix: the coordinates say how the bytes are read, and are no part of them.
pub fn element(k: Coordinates, bytes: &[u8]) -> Result<Element, Cause>
    ensures { result ≡ element_answer k bytes.now }
{
    match k {
        Coordinates::One => Ok(Element::from(coordinate(bytes)?)),
        Coordinates::Two(_, _) => {
            let (x, Some(y)) = cut(bytes, b':') else {
                return Err(Cause::Value);
            };
            Ok(Element {
                x: coordinate(x)?,
                y: coordinate(y)?,
            })
        }
    }
}
