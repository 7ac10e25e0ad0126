//! What binding is: laws that hold of every statement. The functions compute nothing; they are called for their contracts.

ghost use Rattle.std.specs.Prelude.{◌≡◌, ◌↔◌, Err, Ok, Some, true};
ghost use Rattle.std.specs.Prelude.{List, Option, ℕ, ℤ};
ghost use Rattle.std.specs.List.{AllByRecursion};
ghost use Rattle.rs_catalog.specs.Catalog.{CatalogDef};
ghost use Rattle.rs_catalog.specs.declared.index.IndexDef.{IndexDef};
ghost use Rattle.rs_expr.specs.Formulas.{Condition};
ghost use Rattle.rs_expr.specs.Predicates.{PredicateDef};
ghost use Rattle.rs_lex.specs.declared.token.Span.{Span as Place};
ghost use Rattle.rs_syntax.specs.Syntax.{Block as BlockSelect, CreatePredicate, CreateRankIndex, Expression, Insert, Query as Select};
ghost use Rattle.rs_syntax.specs.declared.name.Arg.{Arg};
ghost use Rattle.rs_syntax.specs.declared.name.Name.{Name};
ghost use Rattle.rs_syntax.specs.declared.row.RowSyn.{RowSyn};
ghost use Rattle.rs_table.specs.Column.{Column};
ghost use Rattle.rs_value.specs.declared.kind.Kind.{Kind as ValueKind};
ghost use Rattle.rs_value.specs.declared.value.Value.{Value};
ghost use Rattle.rs_query.specs.Tops.{with_tops};
ghost use Rattle.rs_query.specs.declared.query.Query.{Query};
ghost use Rattle.rs_query.specs.declared.term.Term.{Term as BoundTerm};
ghost use Rattle.rs_typing.specs.References.{references_of};
ghost use Rattle.rs_typing.specs.Rules.{Types};
ghost use Rattle.rs_typing.specs.Typing.{Truth};
ghost use Rattle.rs_typing.specs.declared.fault.BindFault.{BindFault};
ghost use Rattle.rs_typing.specs.declared.fault.BindFault.TheVariants.{At};
ghost use Rattle.rs_typing.specs.declared.fault.Why.TheVariants.{LimitOf};
ghost use Rattle.rs_bind.specs.ArgumentRules.{IsOutside, IsWithin};
ghost use Rattle.rs_bind.specs.BlockRules.{TypesBlock};
ghost use Rattle.rs_bind.specs.Conditions.{named_columns, places_in};
ghost use Rattle.rs_bind.specs.Indexes.{index_def_of};
ghost use Rattle.rs_bind.specs.InsertRules.{RefusedInsert, TypesInsert};
ghost use Rattle.rs_bind.specs.Inserts.{insert_of};
ghost use Rattle.rs_bind.specs.Names.{columns_of, most_columns};
ghost use Rattle.rs_bind.specs.Predicates.{predicate_of};
ghost use Rattle.rs_bind.specs.Queries.{Unranked as UnrankedBlock, bound_query, count_of, most_rows, typed_query, with_terms};
ghost use Rattle.rs_bind.specs.QueryRules.{RefusedQuery, TypesQuery};
ghost use Rattle.rs_bind.specs.Sources.{Source, column_in, sources_of};
ghost use Rattle.rs_bind.specs.StatementRules.{RefusedIndex, RefusedNames, RefusedPredicate, TypesIndex, TypesNames, TypesPredicate};
ghost use Rattle.rs_bind.specs.Where.{WhereHolds, conjuncts_hold, holds_of};

/// The conjuncts of a block all hold of some rows exactly where its WHERE does: where the condition that WHERE is holds of
/// the values that the columns have in these rows. That is so over whatever columns the condition is typed, if they have
/// those that it names. Over the columns that it names, a reference in it is refused exactly where it stands for no column, or
/// for several.
pub fn conjuncts_mean_where()
    ensures holds { (catalogue : CatalogDef) (written : BlockSelect) (bound : UnrankedBlock) (terms : List BoundTerm) (rows : List ℕ)
        → TypesBlock catalogue written bound
        → (conjuncts_hold catalogue (with_terms bound terms) rows ≡ true) ↔ WhereHolds catalogue (with_terms bound terms) rows written.filter }
    ensures columns { (catalogue : CatalogDef) (written : BlockSelect) (bound : UnrankedBlock) (terms : List BoundTerm) (rows : List ℕ)
        (x : Expression) (columns : List (ℕ × ℕ)) (c : Condition)
        → TypesBlock catalogue written bound → written.filter ≡ Some x → Types (places_in columns (sources_of catalogue bound.from)) x (Truth c)
        → conjuncts_hold catalogue (with_terms bound terms) rows ≡ holds_of catalogue (with_terms bound terms) rows columns c }
    ensures refused { (sources : List Source) (x : Expression) → AllByRecursion (λ c. (fault : BindFault)
        → (places_in (named_columns sources x) sources c ≡ Err fault) ↔ (column_in sources c ≡ Err fault)) (references_of x) }
{}

/// A SELECT is typed as one query at most, as the rules say, or refused with one fault, that of the first rule that fails; it is
/// never both. It is bound as that query with its tops.
pub fn queries_are_typed_by_rules()
    ensures typed { (catalogue : CatalogDef) (select : Select) (query : Query) → (typed_query catalogue select ≡ Ok query) ↔ TypesQuery catalogue select query }
    ensures bound { (catalogue : CatalogDef) (select : Select) (query : Query) → (bound_query catalogue select ≡ Ok query)
        ↔ ((typed : Query) × TypesQuery catalogue select typed × (with_tops catalogue typed ≡ query)) }
    ensures refused { (catalogue : CatalogDef) (select : Select) (fault : BindFault)
        → (bound_query catalogue select ≡ Err fault) ↔ RefusedQuery catalogue select fault }
    ensures one { (catalogue : CatalogDef) (select : Select) (query other : Query) → TypesQuery catalogue select query → TypesQuery catalogue select other
        → query ≡ other }
{}

/// The same of the other statements that are bound: the columns of a CREATE TABLE, a CREATE PREDICATE, a CREATE RANK INDEX,
/// an INSERT, and the number in FETCH.
pub fn statements_are_typed_by_rules()
    ensures table { (columns : List (Name × ValueKind)) (made : List Column) → (columns_of columns ≡ Ok made) ↔ TypesNames most_columns columns made }
    ensures no_table { (columns : List (Name × ValueKind)) (fault : BindFault) → (columns_of columns ≡ Err fault) ↔ RefusedNames most_columns columns fault }
    ensures predicate { (name : Name) (params : List (Name × ValueKind)) (max : ℤ × Place) (cost : Option (ℤ × Place)) (formula : Expression) (made : PredicateDef)
        → (predicate_of (CreatePredicate name params max cost formula) ≡ Ok made) ↔ TypesPredicate name params max cost formula made }
    ensures no_predicate { (name : Name) (params : List (Name × ValueKind)) (max : ℤ × Place) (cost : Option (ℤ × Place)) (formula : Expression) (fault : BindFault)
        → (predicate_of (CreatePredicate name params max cost formula) ≡ Err fault) ↔ RefusedPredicate params max cost formula fault }
    ensures index { (catalogue : CatalogDef) (name table predicate : Name) (args : List Arg) (at : Place) (made : IndexDef)
        → (index_def_of catalogue (CreateRankIndex name table predicate args at) ≡ Ok made) ↔ TypesIndex catalogue name table predicate args made }
    ensures no_index { (catalogue : CatalogDef) (name table predicate : Name) (args : List Arg) (at : Place) (fault : BindFault)
        → (index_def_of catalogue (CreateRankIndex name table predicate args at) ≡ Err fault) ↔ RefusedIndex catalogue table predicate args at fault }
    ensures insert { (catalogue : CatalogDef) (table : Name) (rows : List RowSyn) (made : ℕ × List (List Value))
        → (insert_of catalogue (Insert table rows) ≡ Ok made) ↔ TypesInsert catalogue table rows made }
    ensures no_insert { (catalogue : CatalogDef) (table : Name) (rows : List RowSyn) (fault : BindFault)
        → (insert_of catalogue (Insert table rows) ≡ Err fault) ↔ RefusedInsert catalogue table rows fault }
    ensures count { (count : ℤ × Place) (made : ℕ) → (count_of count ≡ Ok made) ↔ IsWithin 0 most_rows count.0 made }
    ensures no_count { (count : ℤ × Place) (fault : BindFault)
        → (count_of count ≡ Err fault) ↔ (IsOutside 0 most_rows count.0 × (At LimitOf count.1 ≡ fault)) }
{}
