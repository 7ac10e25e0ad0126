//! What scripts under the word `view` hold and put: laws that hold of all scripts. The functions compute nothing; they are called for
//! their contracts.

ghost use Rattle.std.specs.Prelude.{◌≡◌, ◌∷◌, ◌++◌, ℕ, ℤ, List, Ok, Option, min};
ghost use Rattle.rs_lex.specs.declared.token.Span.{Span};
ghost use Rattle.rs_expr.specs.Scoring.{Answering};
ghost use Rattle.rs_bind.specs.Queries.{count_of};
ghost use Rattle.rs_view.specs.Holding.{limited};
ghost use Rattle.rs_view.specs.Views.{ViewDef, most_kept};
ghost use Rattle.rs_syntax.specs.Syntax.{Command, Declare};
ghost use Rattle.rs_syntax.specs.Syntax as syntax;
ghost use Rattle.rs_syntax.specs.Written.{AreWritten};
ghost use Rattle.rs_syntax.specs.declared.name.Name.{Name};
ghost use Rattle.rs_outside.specs.Files.{found_in};
ghost use Rattle.rs_run.specs.Reached.{AllHaveTheirAnswers, AreNotClosed, HasPlace, LeadsByViews, PutsAsPlain, PutsAsSelect, anything, most_written, with_limit};
ghost use Rattle.rs_run.specs.Viewing.{ViewState, first_view_statement, view_named};

/// In each state that statements lead to from nothing, whatever their fetches find, each held view has the first rows of its query's
/// answer over the tables as they are: as many as its LIMIT says, or 10. And no call of a plain evaluation of its query is answered by a
/// bad number there.
pub fn held_views_have_their_answers()
    ensures { (answer : Answering) (commands : List Command) (state : ViewState)
        → AreWritten commands → LeadsByViews anything answer first_view_statement commands state
        → AllHaveTheirAnswers answer state.kept }
{}

/// In each such state a FETCH of a held view puts what `plain` puts in its place for the view's query with a LIMIT of the FETCH's number
/// or of the view's, whichever is less. It calls nobody, while `plain` makes all calls of that query; none of these is answered by a bad
/// number, so `plain` comes to no fault either. And its place is the same: under `plain` the script's other statements, without DECLARE,
/// FETCH and CLOSE, lead from nothing to the same tables, predicates and indexes.
pub fn fetches_of_views_put_what_plain_puts()
    ensures puts { (answer : Answering) (commands : List Command) (state : ViewState) (count : ℤ × Span) (wanted : ℕ) (name : Name) (view : ViewDef)
        → AreWritten commands → LeadsByViews anything answer first_view_statement commands state
        → count_of count ≡ Ok wanted → view_named name.text state.kept.views ≡ Ok view
        → PutsAsPlain answer state.kept count name (limited (min wanted (most_kept view.query)) view.query) }
    ensures place { (there : List ℕ → Option (List ℕ)) (answer : Answering) (commands : List Command) (state : ViewState)
        → LeadsByViews (found_in there) answer first_view_statement commands state → HasPlace (found_in there) answer commands state.kept }
{}

/// So it is of the text of a script. Behind a DECLARE, and statements none of which closes its name, a FETCH of that name puts what the
/// SELECT of the DECLARE, with a LIMIT of the FETCH's number or its own, puts under `plain` in the place of the FETCH.
pub fn fetches_of_views_put_what_selects_put()
    ensures { (answer : Answering) (before after : List Command) (state : ViewState) (declared name : Name) (query : syntax.Query) (limit count : ℤ × Span) (most wanted : ℕ)
        → AreWritten (before ++ Declare declared query ∷ after) → LeadsByViews anything answer first_view_statement (before ++ Declare declared query ∷ after) state
        → declared.text ≡ name.text → AreNotClosed name.text after
        → most_written query ≡ Ok most → count_of count ≡ Ok wanted → count_of limit ≡ Ok (min wanted most)
        → PutsAsSelect answer state.kept count name (with_limit limit query) }
{}
