ghost use Rattle.std.specs.Prelude.{IfErr, IfOk};

use crate::open_fault::{End, OpenFault};
use rs_ask::Answers;
use rs_outside::Sink;
use rs_value::Text;

/// What opens the three files of an asking, each by its name.
pub trait Opens {
    ghost use Rattle.std.specs.Prelude.{List, ℕ};
    ghost use Rattle.rs_prepare.specs.declared.open_fault.End.{End as Of};
    ghost use Rattle.rs_prepare.specs.declared.open_fault.OpenFault.{OpenFault as Fault};

    type Questions: Sink + Drop;

    type Answers: Answers + Drop;

    type Scores: Sink + Drop;

    /// The object opens the file of this name for questions, and what is put here goes to it; and the object afterwards.
    ghost questions_to: { Self → List ℕ → Self.Questions → Self → Type 0 };

    /// It opens the file of this name for answers, and what is read here comes from it.
    ghost answers_from: { Self → List ℕ → Self.Answers → Self → Type 0 };

    /// It opens the file of this name for scores, and what is put here stands behind its end.
    ghost scores_in: { Self → List ℕ → Self.Scores → Self → Type 0 };

    /// It refuses to open the file of this name for this end so.
    ghost refuses: { Self → Of → List ℕ → Fault → Self → Type 0 };

    /// Opens the file of known scores, to write behind its end. It is made where it isn't there, and it is locked as long as it is
    /// open, where the system can lock it.
    ///
    /// # Errors
    ///
    /// - `Missing`, `InUse`, `OneFile`, `Failed`: where the outside refuses it so.
    /// - `Output`, `Error`, `Scores`, `Questions`: which file it is then.
    /// - `Memory`: where the outside has none.
    fn open_scores(&mut self, name: &Text) -> Result<Self::Scores, OpenFault>
        ensures opened { IfOk result (λ file. scores_in self.old name.now file self.new) }
        ensures refused { IfErr result (λ fault. refuses self.old End.Scores name.now fault self.new) };

    /// Opens the file of questions.
    ///
    /// # Errors
    ///
    /// - `Missing`, `InUse`, `OneFile`, `Failed`: where the outside refuses it so.
    /// - `Output`, `Error`, `Scores`, `Questions`: which file it is then.
    /// - `Memory`: where the outside has none.
    fn open_questions(&mut self, name: &Text) -> Result<Self::Questions, OpenFault>
        ensures opened { IfOk result (λ file. questions_to self.old name.now file self.new) }
        ensures refused { IfErr result (λ fault. refuses self.old End.Questions name.now fault self.new) };

    /// Opens the file of answers.
    ///
    /// # Errors
    ///
    /// - `Missing`, `InUse`, `OneFile`, `Failed`: where the outside refuses it so.
    /// - `Output`, `Error`, `Scores`, `Questions`: which file it is then.
    /// - `Memory`: where the outside has none.
    fn open_answers(&mut self, name: &Text) -> Result<Self::Answers, OpenFault>
        ensures opened { IfOk result (λ file. answers_from self.old name.now file self.new) }
        ensures refused { IfErr result (λ fault. refuses self.old End.Answers name.now fault self.new) };
}
