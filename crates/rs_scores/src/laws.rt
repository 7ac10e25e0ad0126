//! What is written of known scores is read back. The functions compute nothing; they are called for their contracts.

ghost use Rattle.std.specs.Prelude.{◌≡◌, ◌++◌, [], ℕ, List, None, Ok};
ghost use Rattle.std.specs.List.{All, concat};
ghost use Rattle.rs_expr.specs.declared.scorer.Call.{Call};
ghost use Rattle.rs_scores.specs.Kept.{AreNew, CanBeKept};
ghost use Rattle.rs_scores.specs.Known.{Known};
ghost use Rattle.rs_scores.specs.Lines.{known_lines};
ghost use Rattle.rs_scores.specs.Questions.{question_of};
ghost use Rattle.rs_scores.specs.Reading.{Knows, scores_in};
ghost use Rattle.rs_scores.specs.TableScorer.{missing_for};
ghost use Rattle.rs_scores.specs.declared.known_score.KnownScore.{KnownScore};

/// The lines of known scores are read as these scores, and behind a file that is read already they are read behind what it
/// has. So over two starts, and over any number, each score that was written is known.
pub fn written_scores_are_read_back()
    ensures alone { (names : List (List ℕ)) (entries : List KnownScore) → All (CanBeKept names) entries → AreNew [] entries
        → scores_in names (concat (known_lines entries)) ≡ Ok entries }
    ensures behind { (names : List (List ℕ)) (bytes : List ℕ) (before entries : List KnownScore) → scores_in names bytes ≡ Ok before
        → All (CanBeKept names) entries → AreNew before entries
        → scores_in names (bytes ++ concat (known_lines entries)) ≡ Ok (before ++ entries) }
{}

/// A table that has the scores that were read and written is asked for none of them: no call of their questions misses a score.
pub fn written_scores_are_never_missing()
    ensures { (names : List (List ℕ)) (before entries : List KnownScore) (known : Known) → AreNew before entries → Knows names (before ++ entries) known
        → All (λ entry. (call : Call) → question_of call ≡ entry.question → missing_for known call ≡ None) entries }
{}
