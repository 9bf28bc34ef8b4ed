//! What is told by its number: refusals and faults, of which a caller reads a number.
#![tactic(auto)]

ghost use Rattle.std.specs.Prelude.{◌≡◌, ℕ};

/// A refusal or a fault, which has the number that a caller is told.
pub trait Numbered {
    // The number of each value.
    ghost number_of: { Self → ℕ };

    /// The number that a caller is told.
    fn number(self) -> u32
        ensures { result ≡ number_of self };
}
