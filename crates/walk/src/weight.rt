// What a kind of weight is.
ghost use Rattle.std.specs.Prelude.{◌≡◌, true};
ghost use Rattle.walk.specs.Weights.{Laws};

/// What the walk carries down the memberships: a kind of weight that can be added and stepped.
pub trait Weight {
    ghost nothing: { Self };

    ghost plus: { Self → Self → Self };

    ghost stepped: { Self → Self };

    /// The weight that adds nothing.
    fn nothing() -> Self
        ensures { result ≡ nothing };

    /// Both weights together.
    fn plus(&self, other: &Self) -> Self
        ensures { result ≡ plus self.now other.now };

    /// The weight one membership further down.
    fn step(&self) -> Self
        ensures { result ≡ stepped self.now };

    /// Whether this is surely nothing: the walk need not carry it on.
    fn is_nothing(&self) -> bool
        ensures { result ≡ true → self.now ≡ nothing };

    // What each kind of weight must show.
    ghost lawful: { Laws nothing plus stepped };
}
