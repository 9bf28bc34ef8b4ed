//! What a field says, whatever bytes it holds.

ghost use Rattle.std.specs.Prelude.{◌≡◌, ℕ, ◌+◌, ◌-◌, ◌*◌, ◌<◌, ◌≤◌, length, ◌≢◌, slice_index};
ghost use Rattle.fields.specs.Fields.{past_blanks, digits_after, field_number};
ghost use Rattle.fields.specs.Checks.{fault_of, number_in, blanks_from, is_blank, optional_in, sign_in, name_in};
ghost use Rattle.fields.specs.Spelling.{FirstFilled, Spelled, Named};

use crate::faults::{FieldCause, FieldFault};
use crate::field::Field;
use strategies::marks::Sign;
use strategies::strategy::Strategy;

// How many blanks lead the bytes.
fn leading_blanks(bytes: &[u8]) -> usize
    ensures within { result ≤ length bytes.now }
    ensures before { (k : ℕ) → k < result → slice_index bytes.now k ≡ 32 }
    ensures found { result < length bytes.now → slice_index bytes.now result ≢ 32 }
{
    bytes.iter().position(|b| *b != b' ').unwrap_or(bytes.len())
}

// The bytes behind the leading blanks.
fn trim_blanks(bytes: &[u8]) -> &[u8]
    ensures value { result.now ≡ past_blanks bytes.now }
    ensures shorter { length result.now ≤ length bytes.now }
{
    &bytes[leading_blanks(bytes)..]
}

// The number that at most nine digits write.
// A loop and not `try_fold`: how large the number so far is rests on how many digits came, which a closure does not see.
fn digits(bytes: &[u8]) -> Option<u32>
    requires { length bytes.now ≤ 9 }
    ensures value { result ≡ digits_after 0 bytes.now }
{
    let mut value = 0;
    for d in bytes {
        match d {
            b'0'..=b'9' => value = value * 10 + u32::from(*d - b'0'),
            _ => return None,
        }
    }
    Some(value)
}

// The number that stands behind the blanks.
fn numeral(bytes: &[u8]) -> Option<u32>
    ensures value { result ≡ field_number bytes.now }
{
    match trim_blanks(bytes) {
        [] | [b'0', _, ..] => None,
        spelled if spelled.len() <= 9 => digits(spelled),
        _ => None,
    }
}

impl Field<'_> {
    /// A fault of the field with this cause, at the field's first column.
    pub fn fault(self, cause: FieldCause) -> FieldFault
        ensures answer { result ≡ fault_of cause self.entry.column }
    {
        FieldFault {
            cause,
            column: self.column,
        }
    }

    /// The number of at most nine digits that stands right-justified in the field.
    pub fn number(self) -> Result<u32, FieldFault>
        ensures answer { result ≡ number_in self.entry.bytes.now self.entry.column }
        ensures spelled { Spelled self.entry.bytes.now result }
    {
        numeral(self.bytes).ok_or(self.fault(FieldCause::Number))
    }

    /// Is there nothing but blanks?
    pub fn is_blank(self) -> bool
        ensures answer { result ≡ is_blank self.entry.bytes.now }
    {
        trim_blanks(self.bytes).is_empty()
    }

    /// A number, or none where the field is left blank.
    pub fn optional(self) -> Result<Option<u32>, FieldFault>
        ensures answer { result ≡ optional_in self.entry.bytes.now self.entry.column }
    {
        if self.is_blank() {
            Ok(None)
        } else {
            self.number().map(Some)
        }
    }

    /// Refuses the first byte that is not a blank, at its column.
    pub fn expect_blank(self) -> Result<(), FieldFault>
        ensures answer { result ≡ blanks_from self.entry.column self.entry.bytes.now }
        ensures first { FirstFilled self.entry.column self.entry.bytes.now result }
    {
        let blanks = leading_blanks(self.bytes);
        if blanks < self.bytes.len() {
            return Err(FieldFault {
                cause: FieldCause::Blank,
                column: self.column + blanks as u32,
            });
        }
        Ok(())
    }

    /// The sign that stands alone in the field.
    pub fn sign(self) -> Result<Sign, FieldFault>
        ensures answer { result ≡ sign_in self.entry.bytes.now self.entry.column }
    {
        match self.bytes {
            [b'+'] => Ok(Sign::Plus),
            [b'-'] => Ok(Sign::Minus),
            _ => Err(self.fault(FieldCause::Sign)),
        }
    }

    /// The strategy whose name stands right-justified in the field.
    pub fn strategy(self) -> Result<Strategy, FieldFault>
        ensures answer { result ≡ name_in self.entry.bytes.now self.entry.column }
        ensures named { Named self.entry.bytes.now result }
    {
        let column = self.column;
        Strategy::named(trim_blanks(self.bytes)).map_err(|refusal| FieldFault {
            cause: FieldCause::Name(refusal),
            column,
        })
    }
}
