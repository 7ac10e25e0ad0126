ghost use Rattle.std.specs.Prelude.{◌≡◌, drop, length, take, IfErr, IfOk, OnErr, OnOk};
ghost use Rattle.rs_expr.specs.InOrder.{Inquires};
ghost use Rattle.rs_expr.specs.Scoring.{Answering};
ghost use Rattle.rs_plain.specs.Results.{NamesCalled};
ghost use Rattle.rs_query.specs.Blocks.{block_in};
ghost use Rattle.rs_query.specs.Tables.{sizes_of};
ghost use Rattle.rs_query.specs.WellFormed.{IsQuery};
ghost use Rattle.rs_view.specs.Fresh.{as_grown, growing, making};
ghost use Rattle.rs_view.specs.Views.{IsKeepable, Stands, most_kept, rows_in, view_of};

use crate::fresh::fresh_rows;
use crate::keep::keep_first;
use rs_catalog::{Catalog, Snapshot};
use rs_expr::Scorer;
use rs_plain::{PlainFault, block_answers};
use rs_query::{Query, block_in, limit_of, sizes_of};
use rs_rank::{Answer, RankRow};
use rs_value::Memory;
use std::alloc::Global;
use std::marker::Model;

/// The most rows that a view of a query without LIMIT has.
const MOST_ROWS: u32 = 10;

/// The first rows of the answer of a query, as many as its LIMIT says, or 10. They stay as they are while tables grow, until the view
/// grows too.
#[derive(Drop)]
pub struct View {
    query: Query,
    // How many rows each FROM entry had when the view was made or grew last, 0 past the last entry.
    lengths: [u32; 6],
    // Output values would take far more. They are made of the tables where rows are asked for.
    rows: Vec<RankRow>,
}

impl Model for View {
    ghost use Rattle.std.specs.Prelude.{◌≡◌, length};
    ghost use Rattle.rs_view.specs.Stored.{view_code};
    ghost use Rattle.rs_view.specs.Views.{ViewDef};

    ghost Value = { ViewDef };

    ghost coded = { view_code };

    ghost view = { λ v. record { query = v.query; lengths = v.lengths; rows = v.rows.items } };

    ghost invariant = { λ v. length v.lengths ≡ 6 };
}

impl View {
    /// The view of a query of one block without DISTINCT, over all rows that its tables have. The scorer is called as for the whole
    /// answer: for every combination in lexicographic order, and for each for the terms in order, up to the first fault.
    ///
    /// # Errors
    ///
    /// - `BadScore`: exactly at the first call whose answer lies outside 0 to the predicate's MAX, unless `Probe` or
    ///   `Memory` came before.
    /// - `Probe`: only where the last call that was made failed; the scorer's count of faults rose.
    /// - `Memory`: at any time, but not behind an answer outside that range. Then the calls that were made are the
    ///   first ones, in their order.
    pub fn make<S: Scorer>(
        alloc: Global,
        catalog: &Catalog,
        query: Query,
        scorer: &mut S,
    ) -> Result<View, PlainFault>
        requires query { IsQuery catalog.now query }
        requires keepable { IsKeepable query }
        ensures makes { Inquires PlainFault.Memory (making (S.state scorer.old).answer catalog.now query) result
            (S.state scorer.old) (S.state scorer.new) }
        ensures stands { IfOk result (Stands (S.state scorer.new).answer catalog.now) }

        // A bad or failed call is one of a term of the query.
        ensures names { IfErr result (NamesCalled catalog.now query) }
    {
        let mut view = View {
            query,
            lengths: [0; 6],
            rows: Vec::new(alloc),
        };
        view.grow(alloc, catalog, scorer)?;
        Ok(view)
    }

    /// Brings the rows up to date with the tables. The scorer is called for the combinations alone that have a row behind those of
    /// before, in lexicographic order, and for each for the terms in order, up to the first fault. After a fault the view is as it
    /// was, and stands as before.
    ///
    /// # Errors
    ///
    /// - `BadScore`: exactly at the first call whose answer lies outside 0 to the predicate's MAX, unless `Probe` or
    ///   `Memory` came before.
    /// - `Probe`: only where the last call that was made failed; the scorer's count of faults rose.
    /// - `Memory`: at any time, but not behind an answer outside that range. Then the calls that were made are the
    ///   first ones, in their order.
    pub fn grow<S: Scorer>(
        &mut self,
        alloc: Global,
        catalog: &Catalog,
        scorer: &mut S,
    ) -> Result<(), PlainFault>
        requires { Stands (S.state scorer.old).answer catalog.now self.old }
        ensures grows { Inquires PlainFault.Memory (growing (S.state scorer.old).answer catalog.now self.old)
            (as_grown self.new result) (S.state scorer.old) (S.state scorer.new) }
        ensures ok { OnOk result (self.new ≡ view_of (S.state scorer.old).answer catalog.now self.old.query
            (sizes_of catalog.now (block_in self.old.query 1))) }
        ensures err { OnErr result (self.new ≡ self.old) }
        ensures stands { Stands (S.state scorer.new).answer catalog.now self.new }

        // A bad or failed call is one of a term of the query.
        ensures names { IfErr result (NamesCalled catalog.now self.old.query) }
    {
        let catalog = Snapshot::current(catalog);
        let most = self.most();
        let more = fresh_rows(alloc, &catalog, &self.query, &self.lengths, most, scorer)?;
        let lengths = sizes_of(&catalog, block_in(&self.query, 1));
        keep_first(&mut self.rows, more, most)?;
        self.lengths = lengths;
        Ok(())
    }

    /// How many rows the view has.
    pub fn len(&self) -> usize
        ensures { result ≡ length self.now.rows }
    {
        self.rows.len()
    }

    /// The rows behind so many first ones, at most so many, with their output values.
    ///
    /// # Errors
    ///
    /// - `Memory`: at any call.
    pub fn rows(
        &self,
        alloc: Global,
        catalog: &Catalog,
        from: usize,
        most: usize,
    ) -> Result<Vec<Answer>, Memory>
        requires { (answer : Answering) × Stands answer catalog.now self.now }
        ensures { IfOk result (λ rows. rows.items ≡ take most (drop from (rows_in catalog.now self.now))) }
    {
        let catalog = Snapshot::current(catalog);
        let start = from.min(self.rows.len());
        let end = start + most.min(self.rows.len() - start);
        block_answers(
            alloc,
            &catalog,
            block_in(&self.query, 1),
            &self.rows[start..end],
        )
    }

    /// How many rows the view has at most.
    fn most(&self) -> u32
        ensures { result ≡ most_kept self.now.query }
    {
        limit_of(&self.query).unwrap_or(MOST_ROWS)
    }
}
