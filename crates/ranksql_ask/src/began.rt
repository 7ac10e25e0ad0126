use std::marker::Brand;

/// What stood before a run. Proofs alone see it.
pub(crate) trait Began {
    ghost use Rattle.rs_scores.specs.Known.{Known};

    /// The scores that are known.
    ghost known: { Known };
}

impl Began for Brand {
    ghost use Rattle.std.specs.Prelude.{[]};

    ghost known = { record { names = []; scores = [] } };
}
