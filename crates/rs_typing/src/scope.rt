ghost use Rattle.std.specs.Prelude.{◌≡◌, ◌≤◌, IfOk, List, Option, Result, length, option_map, ℕ};
ghost use Rattle.rs_lex.specs.declared.token.Span.{Span as Place};
ghost use Rattle.rs_syntax.specs.declared.name.ColRef.{ColRef as Reference};
ghost use Rattle.rs_value.specs.declared.kind.Kind.{Kind as ColumnKind};
ghost use Rattle.rs_typing.specs.declared.fault.BindFault.{BindFault as Fault};
ghost use Rattle.rs_typing.specs.Parameters.{parameter_in, placed};
ghost use Rattle.rs_typing.specs.Typing.{span_of_column};

use crate::fault::{BindFault, Why};
use rs_lex::Span;
use rs_syntax::ColRef;
use rs_value::{Kind, Text};

/// What the columns of an expression stand for: the numbers of arguments, with their kinds.
pub trait Scope {
    ghost use Rattle.std.specs.Prelude.{Result, ℕ};
    ghost use Rattle.rs_value.specs.declared.kind.Kind.{Kind};
    ghost use Rattle.rs_syntax.specs.declared.name.ColRef.{ColRef};
    ghost use Rattle.rs_typing.specs.declared.fault.BindFault.{BindFault};

    /// The argument that a column stands for, or why it stands for none.
    ghost finds: { Self → ColRef → Result (ℕ × Kind) BindFault };

    /// The number and the kind of the argument that a column stands for.
    ///
    /// # Errors
    ///
    /// - `At`: exactly where the column stands for none, with the rule that it breaks and its place.
    /// - `Memory`: where the scope's definition says so, which none here does.
    fn find(&self, column: &ColRef) -> Result<(u16, Kind), BindFault>
        ensures { result ≡ finds self.now column.now };
}

/// The parameters of a predicate, at most 8.
#[derive(Drop)]
pub struct Parameters<'a> {
    pub columns: &'a [(Text, Kind)],
    ghost few: { length columns.now ≤ 8 },
}

impl Scope for Parameters<'_> {
    ghost finds = { λ params. parameter_in params.columns.now };

    fn find(&self, column: &ColRef) -> Result<(u16, Kind), BindFault> {
        if column.alias.is_some() {
            return Err(BindFault::At(Why::NoColumn, span_of_column(column)));
        }
        match find_column(self.columns, &column.column.text) {
            Some(found) => Ok(found),
            None => Err(BindFault::At(Why::NoColumn, span_of_column(column))),
        }
    }
}

/// The place of the first column of this name, and its kind.
fn find_column(columns: &[(Text, Kind)], name: &Text) -> Option<(u16, Kind)>
    requires { length columns.now ≤ 8 }
    ensures { result ≡ placed name.now columns.now }
{
    for (place, column) in columns.iter().enumerate() {
        if column.0.as_str() == name.as_str() {
            return Some((place as u16, column.1));
        }
    }
    None
}

/// The span of a whole reference.
pub fn span_of_column(column: &ColRef) -> Span
    ensures { result ≡ span_of_column column.now }
{
    match &column.alias {
        None => column.column.at,
        Some(alias) => Span {
            start: alias.at.start,
            end: column.column.at.end,
        },
    }
}
