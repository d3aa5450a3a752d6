//! What candidates are offered to.

/// Something that takes candidates one by one, such as a pool that keeps the best of them.
pub trait Sink {
    ghost use Rattle.std.specs.Prelude.{◌≡◌};
    ghost use Rattle.rank_scores.specs.declared.candidate.Candidate.{Candidate};

    /// The value after one more candidate.
    ghost taken: { Self → Candidate → Self };

    /// Takes one more candidate.
    fn offer(&mut self, candidate: crate::Candidate)
        ensures { self.new ≡ taken self.old candidate };
}
