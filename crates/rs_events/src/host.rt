ghost use Rattle.std.specs.Prelude.{◌≡◌};
ghost use Rattle.std.specs.Borrow.{Lends, sem};
ghost use Rattle.rs_events.specs.Environment.{Environment};

use rs_expr::Scorer;
use rs_outside::{Files, Sink};

/// The files, the scorer and the output that a run is given, handed down as one. Each is lent, and what its borrower
/// does to it is done here.
pub trait Host {
    type Files: Files;

    type Scorer: Scorer;

    type Out: Sink;

    /// The three as contracts see them, beside a standard error that tells nothing.
    ghost state: { Self → Environment };

    /// What it becomes where one of the three was changed.
    ghost with_files: { Self → Self.Files → Self };

    ghost with_scorer: { Self → Self.Scorer → Self };

    ghost with_out: { Self → Self.Out → Self };

    /// The files alone.
    fn files(&mut self) -> &mut Self::Files
        ensures* writes_back { sem 𝓛 (Lends Self.row Self.Files.row self.entry result (with_files self.old)) }
        ensures value { Self.Files.state result.now ≡ (state self.old).files };

    /// The scorer alone.
    fn scorer(&mut self) -> &mut Self::Scorer
        ensures* writes_back { sem 𝓛 (Lends Self.row Self.Scorer.row self.entry result (with_scorer self.old)) }
        ensures value { Self.Scorer.state result.now ≡ (state self.old).scorer };

    /// The output alone.
    fn out(&mut self) -> &mut Self::Out
        ensures* writes_back { sem 𝓛 (Lends Self.row Self.Out.row self.entry result (with_out self.old)) }
        ensures value { Self.Out.state result.now ≡ (state self.old).out };

    /// The other two stay as they were.
    ghost after_files: { (host : Self) (files : Self.Files)
        → state (with_files host files) ≡ record (state host) { files = Self.Files.state files } };

    ghost after_scorer: { (host : Self) (scorer : Self.Scorer)
        → state (with_scorer host scorer) ≡ record (state host) { scorer = Self.Scorer.state scorer } };

    ghost after_out: { (host : Self) (out : Self.Out)
        → state (with_out host out) ≡ record (state host) { out = Self.Out.state out } };
}
