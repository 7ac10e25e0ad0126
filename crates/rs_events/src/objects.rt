ghost use Rattle.std.specs.Prelude.{◌≡◌, refl};
ghost use Rattle.rs_value.specs.Outside.{untold};
ghost use Rattle.rs_events.specs.Environment.{Environment, environment};

use crate::host::Host;
use rs_expr::Scorer;
use rs_outside::{Files, Sink};

/// Files, a scorer and an output that stand apart.
#[derive(Drop)]
pub struct Objects<'f, 's, 'o, F, S, O> {
    pub files: &'f mut F,
    pub scorer: &'s mut S,
    pub out: &'o mut O,
}

impl<'f, 's, 'o, F: Files, S: Scorer, O: Sink> Host for Objects<'f, 's, 'o, F, S, O> {
    type Files = F;

    type Scorer = S;

    type Out = O;

    ghost state = { λ o. record (environment (F.state o.files.now) (S.state o.scorer.now) (O.state o.out.now) (untold 0)) {
      references = (o.files.ghost_name, o.scorer.ghost_name, o.out.ghost_name);
    } };

    ghost with_files = { λ o files. record o { files = record o.files { now = files } } };

    ghost with_scorer = { λ o scorer. record o { scorer = record o.scorer { now = scorer } } };

    ghost with_out = { λ o out. record o { out = record o.out { now = out } } };

    ghost after_files = { λ o files. refl };

    ghost after_scorer = { λ o scorer. refl };

    ghost after_out = { λ o out. refl };

    fn files(&mut self) -> &mut F {
        &mut *self.files
    }

    fn scorer(&mut self) -> &mut S {
        &mut *self.scorer
    }

    fn out(&mut self) -> &mut O {
        &mut *self.out
    }
}
