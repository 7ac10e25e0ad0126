//! The query of a script.

ghost use Rattle.std.specs.Prelude.{IfOk};
ghost use Rattle.rs_query.specs.WellFormed.{IsQuery};
ghost use Rattle.rs_syntax.specs.Syntax.{commands_of, query_of};
ghost use Rattle.rs_syntax.specs.Written.{AreWritten, IsWrittenQuery};

use cases_lines::Fault;
use cases_scripts::{bind_fault, make, statements_of};
use rs_bind::bind;
use rs_catalog::Catalog;
use rs_query::Query;
use rs_syntax::{Select, Statement};
use rs_value::Text;
use std::alloc::Global;
use std::hash::RandomState;

/// Makes the tables and predicates of a script, and binds its first query.
pub(crate) fn query_of(
    alloc: Global,
    hash_keys: RandomState,
    catalog: &mut Catalog,
    script: &str,
) -> Result<Query, Fault>
    ensures { IfOk result (IsQuery catalog.new) }
{
    let statements = statements_of(alloc, &Text::from_bytes(alloc, script.as_bytes())?)?;
    first_query(alloc, hash_keys, catalog, &statements)
}

/// Makes what the statements say up to the first query, and binds that one.
fn first_query(
    alloc: Global,
    hash_keys: RandomState,
    catalog: &mut Catalog,
    statements: &[Statement],
) -> Result<Query, Fault>
    requires { AreWritten (commands_of statements.now) }
    ensures { IfOk result (IsQuery catalog.new) }
{
    for statement in statements {
        if let Statement::Query(select) = statement {
            return bound(alloc, catalog, select);
        }
        make(alloc, hash_keys, catalog, statement)?;
    }
    Err(Fault::Form)
}

fn bound(alloc: Global, catalog: &Catalog, select: &Select) -> Result<Query, Fault>
    requires { IsWrittenQuery (query_of select.now) }
    ensures { IfOk result (IsQuery catalog.now) }
{
    match bind(alloc, catalog, select) {
        Ok(query) => Ok(query),
        Err(fault) => Err(bind_fault(fault)),
    }
}
