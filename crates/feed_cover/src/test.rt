ghost use Rattle.std.specs.Prelude.{◌≡◌, ℕ, Bool};

/// A test of elements, by index.
pub trait ElementTest {
    /// The elements that may be asked about.
    ghost may_ask: { Self → ℕ → Type 0 };

    ghost passes: { Self → ℕ → Bool };

    fn passes(&self, element: u32) -> bool
        requires { may_ask self.now element }
        ensures { result ≡ passes self.now element };
}
