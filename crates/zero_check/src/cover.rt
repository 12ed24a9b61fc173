ghost use Rattle.std.specs.Prelude.{◌≡◌, Bool, true};
ghost use Rattle.rule_laws.specs.declared.reference.Reference.{Reference};

use rule_laws::Reference;

/// Tells which references of a rule are covered by feeders, and keeps what it has answered.
pub trait Cover<K> {
    /// What has to hold of it.
    ghost is_ready: { Self → Type 0 };

    /// What has to hold of what is kept.
    ghost is_kept: { Self → K → Type 0 };

    /// The references that may be asked about.
    ghost knows: { Self → Reference → Bool };

    ghost covers: { Self → Reference → Bool };

    fn covers(&self, reference: &Reference, kept: &mut K) -> bool
        requires ready { is_ready self.now }
        requires known { knows self.now reference.now ≡ true }
        requires kept { is_kept self.now kept.old }
        ensures covers { result ≡ covers self.now reference.now }
        ensures kept { is_kept self.now kept.new };
}
