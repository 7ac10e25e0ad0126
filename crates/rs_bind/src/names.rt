ghost use Rattle.std.specs.Prelude.{◌≡◌, ◌≤◌, IfOk, length};
ghost use Rattle.std.specs.List.{list_any};
ghost use Rattle.rs_value.specs.Answer.{Gives};
ghost use Rattle.rs_table.specs.Column.{is_named};
ghost use Rattle.rs_typing.specs.Models.{result_map};
ghost use Rattle.rs_bind.specs.Names.{named, number_in};

use rs_lex::Span;
use rs_syntax::Name;
use rs_typing::{BindFault, Why};
use rs_value::{Kind, Text};
use std::alloc::Global;

/// Names with their kinds: at most `most`, no two of one name.
pub fn distinct_columns(
    alloc: Global,
    columns: &[(Name, Kind)],
    most: usize,
) -> Result<Vec<(Text, Kind)>, BindFault>
    ensures gives { Gives BindFault.Memory (named most columns.now) (result_map (λ made. made.items) result) }
    ensures few { IfOk result (λ made. (length made.items ≤ most) × (length made.items ≡ length columns.now)) }
{
    let mut made = Vec::new(alloc);
    for (name, kind) in columns {
        if made.len() == most {
            return Err(BindFault::At(Why::LimitOf, name.at));
        }
        if is_among(&made, &name.text) {
            return Err(BindFault::At(Why::NameTwice, name.at));
        }
        let text = name.text.copy()?;
        made.push((text, *kind))?;
    }
    Ok(made)
}

/// Whether one of these columns has this name.
fn is_among(columns: &[(Text, Kind)], name: &Text) -> bool
    ensures { result ≡ list_any (is_named name.now) columns.now }
{
    columns
        .iter()
        .any(|column| column.0.as_str() == name.as_str())
}

/// A number from `least` to `most`.
pub fn number_in(number: &(i64, Span), least: u32, most: u32) -> Result<u32, BindFault>
    ensures value { result ≡ number_in least most number.now }
    ensures within { IfOk result (λ n. (least ≤ n) × (n ≤ most)) }
{
    if number.0 < least as i64 || number.0 > most as i64 {
        return Err(BindFault::At(Why::LimitOf, number.1));
    }
    Ok(number.0 as u32)
}
