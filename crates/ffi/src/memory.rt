//! Memory of the library's own for a book, and what of it is written into the caller's.

ghost use Rattle.std.specs.Prelude.{◌≡◌, ◌≤◌, ◌++◌, length, take, drop};
ghost use Rattle.std.specs.List.{AllZip};
ghost use Rattle.ffi.specs.Left.{bad_sign};
ghost use Rattle.lists.specs.Lists.{some};

use crate::plain::GrantRecord;
use chains::{LENGTHS, MOST_ACCOUNTS};

/// The counts of the most accounts that a book knows.
pub const MOST_COUNTS: usize = MOST_ACCOUNTS * MOST_ACCOUNTS * LENGTHS;

// Copies the first elements, as many as are named.
pub(crate) fn copy_first<T: Copy>(to: &mut [T], from: &[T], many: usize)
    requires { (many ≤ length to.old) × (many ≤ length from.now) }
    ensures { to.new ≡ take many from.now ++ drop many to.old }
{
    // A loop by place and not `copy_from_slice`: for that the static library would need `memmove` from outside.
    for i in 0..many {
        to[i] = from[i];
    }
}

// Writes what the elements give into the first places.
pub(crate) fn write_first<T: Copy, R: Copy + From<T>>(to: &mut [R], from: &[T])
    requires { length from.now ≤ length to.old }
    ensures written { AllZip R.From.from_gives from.now (take (length from.now) to.new) }
    ensures behind { drop (length from.now) to.new ≡ drop (length from.now) to.old }
{
    // A write by place and not a zip: of elements that `iter_mut` lent, a proof knows the number alone.
    for (i, element) in from.iter().enumerate() {
        to[i] = R::from(*element);
    }
}

// Has a record a sign that is none?
pub(crate) fn has_bad_sign(records: &[GrantRecord]) -> bool
    ensures { result ≡ some bad_sign records.now }
{
    records.iter().any(|written| written.sign > 1)
}
