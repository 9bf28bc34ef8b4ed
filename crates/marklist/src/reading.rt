//! Lines that write a mark: the mark, a blank and a distance.

ghost use Rattle.std.specs.Prelude.{◌≡◌, ℕ, ◌<◌, ◌≤◌, length, IfSome, IfOk, Some};
ghost use Rattle.marklist.specs.Lines.{letter_mark, distance_in, behind_mark, arrival_in};

use crate::faults::MarkFault;
use strategies::marks::{Arrival, Mark, Sign};

// The mark that a byte stands for.
// A function and not `TryFrom`: the mark and the byte are types of other crates, which take no impl here.
fn mark_with(letter: u8) -> Option<Mark>
    ensures { result ≡ letter_mark letter }
{
    match letter {
        b'+' => Some(Mark::Signed(Sign::Plus)),
        b'-' => Some(Mark::Signed(Sign::Minus)),
        b'd' => Some(Mark::Default),
        _ => None,
    }
}

// The distance that a text writes: 0 to 14, with no leading zero.
fn distance_in(text: &[u8]) -> Option<usize>
    ensures value { result ≡ distance_in text.now }
    ensures within { IfSome result (λ d. d < 15) }
{
    match text {
        [d @ b'0'..=b'9'] => Some((*d - b'0') as usize),
        [b'1', d @ b'0'..=b'4'] => Some((*d - b'0') as usize + 10),
        _ => None,
    }
}

// The arrival of the mark over the distance that is written behind a blank.
fn read_distance(mark: Mark, rest: &[u8]) -> Result<Arrival, MarkFault>
    ensures value { result ≡ behind_mark (Some mark) rest.now }
    ensures within { IfOk result (λ a. a.distance < 15) }
{
    let [b' ', text @ ..] = rest else {
        return Err(MarkFault::NoBlank);
    };
    let distance = distance_in(text).ok_or(MarkFault::NoDistance)?;
    Ok(Arrival { mark, distance })
}

/// The arrival that a line writes.
pub(crate) fn read_mark(line: &[u8]) -> Result<Arrival, MarkFault>
    ensures value { result ≡ arrival_in line.now }
    ensures within { IfOk result (λ a. a.distance < 15) }
{
    let [letter, rest @ ..] = line else {
        return Err(MarkFault::NoMark);
    };
    let mark = mark_with(*letter).ok_or(MarkFault::NoMark)?;
    read_distance(mark, rest)
}
