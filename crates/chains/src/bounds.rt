//! The bounds on accounts, lengths and counts, and the laws of the tests for them.

ghost use Rattle.chains.specs.Limits.{
  TooLong,
  ShortByEight,
  FewByTable,
  LeadsExactly,
  TooLongExactly,
  TooManyExactly,
  SoundByTests,
};

/// How many lengths a chain can have: 0 to 7.
pub const LENGTHS: usize = 8;

/// How many accounts there can be.
pub const MOST_ACCOUNTS: usize = 64;

/// How many chains of one length can lead from one account down to another.
pub const MOST_CHAINS: u32 = 99_999;

/// Whether any chain is longer than 7 is told by the chains of length 8.
pub fn short_by_eight() -> u8
    ensures { ShortByEight }
{
    0
}

/// A bound on the counts of a table is a bound on all counts.
pub fn few_by_table() -> u8
    ensures { FewByTable }
{
    0
}

/// The test whether a chain leads somewhere is right for chains of any length.
pub fn leads_exactly() -> u8
    ensures { LeadsExactly }
{
    0
}

/// The test for a chain of more than 7 is right for chains of any length.
pub fn too_long_exactly() -> u8
    ensures { TooLongExactly }
{
    0
}

/// The test for a count above 99,999 is right for any accounts and any length.
pub fn too_many_exactly() -> u8
    ensures { TooManyExactly }
{
    0
}

/// A set that passes both tests is one that a book can hold, and the other way round.
pub fn sound_by_tests() -> u8
    ensures { SoundByTests }
{
    0
}

/// Whether a chain would be too long is seen in the counts before.
pub fn too_long_is_seen_in_the_counts() -> u8
    ensures { TooLong }
{
    0
}
