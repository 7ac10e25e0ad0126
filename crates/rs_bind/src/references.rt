//! The columns that an expression names.

ghost use Rattle.std.specs.Prelude.{◌≡◌, ◌++◌, IfOk, OnOk};
ghost use Rattle.std.specs.List.{list_any};
ghost use Rattle.rs_query.specs.WellFormed.{same_column};
ghost use Rattle.rs_syntax.specs.Syntax.{expression_of};
ghost use Rattle.rs_typing.specs.References.{references_of};
ghost use Rattle.rs_bind.specs.Conditions.{named_columns, with_found, with_references};
ghost use Rattle.rs_bind.specs.Sources.{column_in, sources_of};

use crate::sources::Sources;
use rs_syntax::{ColRef, Node};
use rs_value::Memory;
use std::alloc::Global;

/// The columns that an expression names, each once, by its first occurrence from left to right.
pub(crate) fn named_columns(
    alloc: Global,
    sources: &Sources,
    node: &Node,
) -> Result<Vec<(u8, u8)>, Memory>
    ensures { IfOk result (λ made. made.items ≡ named_columns (sources_of sources.now.catalog.now sources.now.from.now) (expression_of node.now)) }
{
    let mut columns = Vec::new(alloc);
    add_columns(sources, node, &mut columns)?;
    Ok(columns)
}

/// Adds the columns that an expression names, from left to right, unless they are there.
#[cycle(references)]
#[tactic(auto, using(crate::proofs::ReferenceFacts::with_references_append))]
fn add_columns(sources: &Sources, node: &Node, columns: &mut Vec<(u8, u8)>) -> Result<(), Memory>
    ensures { OnOk result (columns.new.items
        ≡ with_references (sources_of sources.now.catalog.now sources.now.from.now) columns.old.items (references_of (expression_of node.now))) }
{
    match node {
        Node::Int(_, _) => Ok(()),
        Node::Text(_, _) => Ok(()),
        Node::Column(column) => add_column(sources, column, columns),
        Node::Neg(part, _) => add_columns(sources, part, columns),
        Node::Arith(_, left, right, _) => add_both(sources, left, right, columns),
        Node::Abs(part, _) => add_columns(sources, part, columns),
        Node::Least(left, right, _) => add_both(sources, left, right, columns),
        Node::Greatest(left, right, _) => add_both(sources, left, right, columns),
        Node::Case(condition, outcome, rest, _) => {
            add_columns(sources, condition, columns)?;
            add_both(sources, outcome, rest, columns)
        }
        Node::Compare(_, left, right, _) => add_both(sources, left, right, columns),
        Node::And(left, right, _) => add_both(sources, left, right, columns),
        Node::Or(left, right, _) => add_both(sources, left, right, columns),
        Node::Not(part, _) => add_columns(sources, part, columns),
    }
}

/// Adds the columns that two expressions name, those of the left one first.
#[cycle(references)]
#[tactic(auto, using(crate::proofs::ReferenceFacts::with_references_append))]
fn add_both(
    sources: &Sources,
    left: &Node,
    right: &Node,
    columns: &mut Vec<(u8, u8)>,
) -> Result<(), Memory>
    ensures { OnOk result (columns.new.items
        ≡ with_references (sources_of sources.now.catalog.now sources.now.from.now) columns.old.items
        (references_of (expression_of left.now) ++ references_of (expression_of right.now))) }
{
    add_columns(sources, left, columns)?;
    add_columns(sources, right, columns)
}

/// Adds the column that a reference stands for, unless it stands for none, or its column is there.
fn add_column(
    sources: &Sources,
    reference: &ColRef,
    columns: &mut Vec<(u8, u8)>,
) -> Result<(), Memory>
    ensures { OnOk result (columns.new.items
        ≡ with_found columns.old.items (column_in (sources_of sources.now.catalog.now sources.now.from.now) reference.now)) }
{
    match sources.column(reference) {
        Ok((column, _)) => {
            if has_column(columns, column) {
                return Ok(());
            }
            columns.push(column)?;
            Ok(())
        }
        Err(_) => Ok(()),
    }
}

/// Whether a column is one of these.
fn has_column(columns: &[(u8, u8)], column: (u8, u8)) -> bool
    ensures { result ≡ list_any (same_column column) columns.now }
{
    columns
        .iter()
        .any(|other| column.0 == other.0 && column.1 == other.1)
}
