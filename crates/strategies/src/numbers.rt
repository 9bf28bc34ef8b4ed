//! The numbers of the strategies, there and back.

ghost use Rattle.std.specs.Prelude.{◌≡◌, ◌+◌, ◌<◌, ◌≤◌, false, Some, MatchOption};
ghost use Rattle.strategies.specs.Settings.{repeats, default_number, middle_number, sign_number};
ghost use Rattle.strategies.specs.Names.{number_of};

use crate::marks::Sign;
use crate::strategy::{DefaultRule, Locality, Majority, Strategy};

/// How many strategies there are.
pub const STRATEGIES: u32 = 48;

// The number of the default rule.
fn default_number(rule: DefaultRule) -> u32
    ensures value { result ≡ default_number rule }
    ensures below { result < 3 }
{
    match rule {
        DefaultRule::Dropped => 0,
        DefaultRule::Counts(Sign::Plus) => 1,
        DefaultRule::Counts(Sign::Minus) => 2,
    }
}

// The number of the middle part: nothing, M, L, ML, LM, G, MG or GM.
fn middle_number(locality: Locality, majority: Majority) -> u32
    ensures value { result ≡ middle_number locality majority }
    ensures below { result < 8 }
{
    match (locality, majority) {
        (Locality::Anywhere, Majority::Skipped) => 0,
        (Locality::Anywhere, _) => 1,
        (Locality::Nearest, Majority::Skipped) => 2,
        (Locality::Nearest, Majority::Before) => 3,
        (Locality::Nearest, Majority::After) => 4,
        (Locality::Farthest, Majority::Skipped) => 5,
        (Locality::Farthest, Majority::Before) => 6,
        (Locality::Farthest, Majority::After) => 7,
    }
}

// The preferred sign with the number.
fn sign_with(number: u32) -> Sign
    requires { number < 2 }
    ensures { sign_number result ≡ number }
{
    if number == 0 { Sign::Plus } else { Sign::Minus }
}

// The default rule with the number.
fn default_with(number: u32) -> DefaultRule
    requires { number < 3 }
    ensures { default_number result ≡ number }
{
    match number {
        0 => DefaultRule::Dropped,
        1 => DefaultRule::Counts(Sign::Plus),
        _ => DefaultRule::Counts(Sign::Minus),
    }
}

// The middle part with the number. None of them repeats another.
fn middle_with(number: u32) -> (Locality, Majority)
    requires { number < 8 }
    ensures number { middle_number result.0 result.1 ≡ number }
    ensures alone { repeats result.0 result.1 ≡ false }
{
    match number {
        0 => (Locality::Anywhere, Majority::Skipped),
        1 => (Locality::Anywhere, Majority::Before),
        2 => (Locality::Nearest, Majority::Skipped),
        3 => (Locality::Nearest, Majority::Before),
        4 => (Locality::Nearest, Majority::After),
        5 => (Locality::Farthest, Majority::Skipped),
        6 => (Locality::Farthest, Majority::Before),
        _ => (Locality::Farthest, Majority::After),
    }
}

// The strategy with the number.
pub(crate) fn strategy_with(number: u32) -> Strategy
    requires { number < 48 }
    ensures { number_of result ≡ number }
{
    let (locality, majority) = middle_with(number / 2 % 8);
    Strategy {
        default: default_with(number / 16),
        locality,
        majority,
        preferred: sign_with(number % 2),
    }
}

// Two named methods and not TryFrom and From: of any other number None says all, and an error type would say nothing more.
impl Strategy {
    /// The strategy with the number, if there is one.
    pub fn numbered(number: u32) -> Option<Strategy>
        ensures found { MatchOption result (48 ≤ number) (λ s. number_of s ≡ number) }
        ensures back { (s : Strategy) → number_of s ≡ number → result ≡ Some s }
    {
        (number < STRATEGIES).then(|| strategy_with(number))
    }

    /// The number: 16 for each default rule, 2 for each middle part, 1 for each preferred sign before it.
    pub fn number(self) -> u32
        ensures value { result ≡ number_of self }
        ensures below { result < 48 }
    {
        16 * default_number(self.default)
            + 2 * middle_number(self.locality, self.majority)
            + self.preferred as u32
    }
}
