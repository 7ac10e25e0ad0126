ghost use Rattle.std.specs.Prelude.{◌≡◌, IfOk, IsOk};
ghost use Rattle.rs_value.specs.Value.{kind_of};
ghost use Rattle.rs_value.specs.declared.kind.Kind.TheVariants as kind;
ghost use Rattle.rs_table.specs.Lent.{shown};

use rs_value::{Memory, Text, Value};

/// A cell as a table lends it. A table keeps no `Value`, so it lends none.
#[derive(Clone, Copy, Debug, PartialEq, Eq)]
pub enum Cell<'a> {
    Number(i64),
    Text(&'a Text),
}

impl Cell<'_> {
    /// The value of the cell. Only the copy of a text takes memory, on the text's own allocator.
    ///
    /// # Errors
    ///
    /// - `Memory`: only where the cell is a text.
    pub fn copy(&self) -> Result<Value, Memory>
        ensures same { IfOk result (λ value. value ≡ shown self.now) }
        ensures number { kind_of (shown self.now) ≡ kind.Int → IsOk result }
    {
        match self {
            Cell::Number(number) => Ok(Value::Int(*number)),
            Cell::Text(text) => Ok(Value::Text(text.copy()?)),
        }
    }
}
