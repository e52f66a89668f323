//! Published numbers.
ghost use Rattle.std.specs.Prelude.{◌≡◌, ℕ};

/// What is told by a published number: the cases of a refusal or a verdict, say, or templates.
pub trait Numbered {
    /// The number of each case.
    ghost number: { Self → ℕ };

    /// The published number of the case.
    fn number(self) -> u8
        ensures { result ≡ number self };

    /// No two cases have one number.
    ghost told_apart: { (a b : Self) → number a ≡ number b → a ≡ b };
}
