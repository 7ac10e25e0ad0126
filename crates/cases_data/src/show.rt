//! The lines that tell what a statement is bound to.

use cases_lines::Fault;
use rs_bind::BindFault;
use rs_catalog::IndexDef;
use rs_expr::Predicate;
use rs_query::{Block, Conjunct, Query, Term};
use rs_table::Schema;
use rs_value::{List, Value};

/// Shows the columns of a table.
pub fn show_table(told: &mut String, bound: &Result<Schema, BindFault>) -> Result<(), Fault> {
    let schema = match bound {
        Ok(schema) => schema,
        Err(fault) => return show_refusal(told, *fault),
    };
    told.push_str("table")?;
    for (name, kind) in schema.columns() {
        let name = name.as_str();
        write!(told, "; {name} {kind:?}")?;
    }
    told.push_str("\n")?;
    Ok(())
}

/// Shows a predicate: its name, the kinds of its parameters, MAX, COST and its formula.
pub fn show_predicate(
    told: &mut String,
    bound: &Result<Predicate, BindFault>,
) -> Result<(), Fault> {
    let predicate = match bound {
        Ok(predicate) => predicate,
        Err(fault) => return show_refusal(told, *fault),
    };
    let name = predicate.name().as_str();
    let params = predicate.params();
    let max = predicate.max();
    let cost = predicate.cost();
    write!(
        told,
        "predicate {name}; {params:?}; max {max}; cost {cost}; "
    )?;
    let formula = predicate.formula();
    writeln!(told, "{formula:?}")?;
    Ok(())
}

/// Shows a rank index: its name, and the numbers of its table and its predicate with the arguments.
pub fn show_index(told: &mut String, bound: &Result<IndexDef, BindFault>) -> Result<(), Fault> {
    let def = match bound {
        Ok(def) => def,
        Err(fault) => return show_refusal(told, *fault),
    };
    let name = def.name.as_str();
    let table = def.table;
    let predicate = def.predicate;
    let args = def.args.items();
    writeln!(
        told,
        "index {name}; table {table}; predicate {predicate}; {args:?}"
    )?;
    Ok(())
}

/// Shows the rows of an INSERT: the number of their table, and each row.
pub fn show_rows(
    told: &mut String,
    bound: &Result<(u8, Vec<List<Value>>), BindFault>,
) -> Result<(), Fault> {
    let (table, rows) = match bound {
        Ok((table, rows)) => (*table, rows),
        Err(fault) => return show_refusal(told, *fault),
    };
    write!(told, "rows of table {table}")?;
    for row in rows {
        let row = row.items();
        write!(told, "; {row:?}")?;
    }
    told.push_str("\n")?;
    Ok(())
}

/// Shows a query: its blocks, and its limit.
pub fn show_query(told: &mut String, bound: &Result<Query, BindFault>) -> Result<(), Fault> {
    match bound {
        Ok(Query::One(block, limit)) => {
            told.push_str("query (")?;
            show_block(told, block)?;
            writeln!(told, "); limit {limit:?}")?;
            Ok(())
        }
        Ok(Query::Set(op, left, right, limit)) => {
            write!(told, "query {op:?} (")?;
            show_block(told, left)?;
            told.push_str(") (")?;
            show_block(told, right)?;
            writeln!(told, "); limit {limit:?}")?;
            Ok(())
        }
        Err(fault) => show_refusal(told, *fault),
    }
}

/// Shows the number of a FETCH.
pub fn show_count(told: &mut String, bound: Result<u32, BindFault>) -> Result<(), Fault> {
    match bound {
        Ok(count) => {
            writeln!(told, "count {count}")?;
            Ok(())
        }
        Err(fault) => show_refusal(told, fault),
    }
}

/// Shows the rule that a statement breaks, and the place.
fn show_refusal(told: &mut String, fault: BindFault) -> Result<(), Fault> {
    match fault {
        BindFault::At(why, at) => {
            let start = at.start;
            let end = at.end;
            writeln!(told, "refused {why:?} at {start}..{end}")?;
            Ok(())
        }
        BindFault::Memory => Err(Fault::Memory),
    }
}

/// Shows a block: the tables and aliases of its entries, its conjuncts, its output columns and its terms.
fn show_block(told: &mut String, block: &Block) -> Result<(), Fault> {
    for (table, alias) in block.from.items() {
        let alias = alias.as_str();
        write!(told, "from {table} {alias}; ")?;
    }
    for conjunct in block.conjuncts.items() {
        show_conjunct(told, conjunct)?;
    }
    let word = if block.distinct { "distinct" } else { "all" };
    let items = block.items.items();
    write!(told, "{word} {items:?}")?;
    for term in block.terms.items() {
        show_term(told, term)?;
    }
    Ok(())
}

/// Shows a conjunct: its condition, the columns that are its arguments, the mask of their entries, and the two columns
/// that it says to be equal.
fn show_conjunct(told: &mut String, conjunct: &Conjunct) -> Result<(), Fault> {
    let condition = conjunct.condition();
    write!(told, "where {condition:?} of ")?;
    let columns = conjunct.columns();
    let entries = conjunct.entries();
    let equality = conjunct.equality();
    write!(
        told,
        "{columns:?} entries {entries} equality {equality:?}; "
    )?;
    Ok(())
}

/// Shows a term: its weight, the number of its predicate with the arguments, its greatest worth, and the mask of the
/// entries of its columns.
fn show_term(told: &mut String, term: &Term) -> Result<(), Fault> {
    let weight = term.weight;
    let predicate = term.predicate;
    let args = term.args.items();
    let max = term.max;
    let entries = term.entries;
    write!(
        told,
        "; term {weight} * {predicate} {args:?} max {max} entries {entries}"
    )?;
    Ok(())
}
