//! What is lent.
ghost use Rattle.std.specs.Prelude.{◌≡◌, ◌+◌, ◌<◌, ℕ, IfSome, MatchOption, MatchBool};

/// Some things, each of which is lent to one holder at a time, and may come back.
pub trait Stock: Drop {
    /// What a holder has of a thing.
    type Lent;

    /// A thing that comes back.
    type Back: Drop;

    /// How many things can be lent now.
    ghost ready: { Self → ℕ };

    /// How many there is room for.
    ghost room: { Self → ℕ };

    /// What is lent, of the stock before and behind.
    ghost lends: { Self → Self → Self.Lent → Type 0 };

    /// It has lent as many as it ever will.
    ghost is_spent: { Self → Type 0 };

    /// What a thing that comes back makes of it.
    ghost takes: { Self → Self.Back → Self → Type 0 };

    /// It is to let this thing go, as none of its own.
    ghost refuses: { Self → Self.Back → Type 0 };

    /// What a thing that does not come back makes of it.
    ghost loses: { Self → Self → Type 0 };

    /// What holds of each thing as it is lent.
    ghost fresh: { Self.Lent → Type 0 };

    fn ready(&self) -> usize
        ensures { result ≡ ready self.now };

    fn room(&self) -> usize
        ensures { result ≡ room self.now };

    /// Lends one. A stock may have lent as many as it ever will.
    fn lend(&mut self) -> Option<Self::Lent>
        requires { 0 < ready self.old }
        ensures room { room self.new ≡ room self.old }
        // None comes exactly where it is spent.
        ensures lends { MatchOption result (is_spent self.old × (self.new ≡ self.old))
            (λ one. (¬ is_spent self.old) × lends self.old self.new one) }
        ensures fresh { IfSome result fresh }
        ensures counts { IfSome result (λ _. ready self.old ≡ ready self.new + 1) };

    /// Takes a thing in, or lets it go where it is none of its own.
    fn put(&mut self, back: Self::Back) -> bool
        requires { ready self.old < room self.old }
        ensures room { room self.new ≡ room self.old }
        ensures takes { MatchBool result
            ((¬ refuses self.old back) × takes self.old back self.new)
            (refuses self.old back × (self.new ≡ self.old)) }
        ensures counts { MatchBool result (ready self.new ≡ ready self.old + 1)
            (ready self.new ≡ ready self.old) };

    /// A thing that is out does not come back.
    fn lose(&mut self)
        ensures room { room self.new ≡ room self.old }
        ensures loses { loses self.old self.new }
        ensures counts { ready self.new ≡ ready self.old };
}
