ghost use Rattle.std.specs.Prelude.{◌≡◌, length};
ghost use Rattle.std.specs.List.{list_any};
ghost use Rattle.rs_value.specs.Answer.{Gives};
ghost use Rattle.rs_bind.specs.Indexes.{arg_of, args_of, is_column, of_kind, term_args};

use crate::columns::Columns;
use rs_catalog::BoundArg;
use rs_lex::Span;
use rs_syntax::Arg;
use rs_typing::{BindFault, Why, span_of_column};
use rs_value::{Kind, List};
use std::alloc::Global;

/// The arguments of a predicate with parameters of these kinds, in a term at this place. The rules are looked at in this
/// order: their number (`WrongCount`); each of them, from left to right (what `columns` says of a column, then `WrongKind`);
/// and that one of them is a column (`ConstantTerm`).
pub(crate) fn term_args<C: Columns>(
    alloc: Global,
    columns: &C,
    params: &[Kind],
    args: &[Arg],
    at: Span,
) -> Result<List<BoundArg>, BindFault>
    ensures { Gives BindFault.Memory (term_args (C.finds columns.now) params.now args.now at) result }
{
    if args.len() != params.len() {
        return Err(BindFault::At(Why::WrongCount, at));
    }
    let made = bind_args(alloc, columns, params, args)?;
    if !has_column(made.items()) {
        return Err(BindFault::At(Why::ConstantTerm, at));
    }
    Ok(made)
}

/// Whether one of these arguments is a column.
fn has_column(args: &[BoundArg]) -> bool
    ensures { result ≡ list_any is_column args.now }
{
    args.iter().any(|arg| matches!(arg, BoundArg::Column(_, _)))
}

/// Arguments for as many parameters, from left to right.
fn bind_args<C: Columns>(
    alloc: Global,
    columns: &C,
    params: &[Kind],
    args: &[Arg],
) -> Result<List<BoundArg>, BindFault>
    requires { length args.now ≡ length params.now }
    ensures { Gives BindFault.Memory (args_of (C.finds columns.now) params.now args.now) result }
{
    let mut made = Vec::new(alloc);
    for (index, arg) in args.iter().enumerate() {
        made.push(bind_arg(columns, params[index], arg)?)?;
    }
    Ok(List::of(made))
}

/// An argument for a parameter of this kind.
fn bind_arg<C: Columns>(columns: &C, wanted: Kind, arg: &Arg) -> Result<BoundArg, BindFault>
    ensures { Gives BindFault.Memory (arg_of (C.finds columns.now) wanted arg.now) result }
{
    match arg {
        Arg::Column(column) => {
            let (bound, kind) = columns.find(column)?;
            of_kind(wanted, span_of_column(column), bound, kind)
        }
        Arg::Int(number, at) => of_kind(wanted, *at, BoundArg::Int(*number), Kind::Int),
        Arg::Text(text, at) => of_kind(wanted, *at, BoundArg::Text(text.copy()?), Kind::Text),
    }
}

/// An argument of a kind, for a parameter of the kind that is wanted.
fn of_kind(wanted: Kind, at: Span, bound: BoundArg, kind: Kind) -> Result<BoundArg, BindFault>
    ensures { result ≡ of_kind wanted at (bound, kind) }
{
    if kind != wanted {
        return Err(BindFault::At(Why::WrongKind, at));
    }
    Ok(bound)
}
