ghost use Rattle.std.specs.Prelude.{◌≡◌, ◌++◌, IfOk, IsOk, OnOk, OnErr};
ghost use Rattle.rs_value.specs.Value.{kind_of, printed, value_cmp};
ghost use Rattle.rs_value.specs.declared.kind.Kind.TheVariants as kind;

use crate::kind::Kind;
use crate::memory::Memory;
use crate::text::Text;
use std::cmp::Ordering;

/// A cell of a table.
///
/// The derived order puts each number before each text, so that lists of mixed values can be the keys of a map.
/// Within a kind it is that of `cmp`.
#[derive(Debug, Drop, PartialEq, Eq, PartialOrd, Ord, Hash)]
pub enum Value {
    /// A number. Those of tables and scripts lie between -4,000,000,000,000,000,000 and 4,000,000,000,000,000,000,
    /// so that the sum or the difference of two of them fits an `i64`.
    Int(i64),
    Text(Text),
}

impl Value {
    /// Whether the value is a number or a text.
    pub fn kind(&self) -> Kind
        ensures { result ≡ kind_of self.now }
    {
        match self {
            Value::Int(_) => Kind::Int,
            Value::Text(_) => Kind::Text,
        }
    }

    /// An equal value. Only the copy of a text takes memory, on the text's own allocator.
    ///
    /// # Errors
    ///
    /// - `Memory`: at any copy of a text; never at that of a number.
    pub fn copy(&self) -> Result<Value, Memory>
        ensures same { IfOk result (λ value. value ≡ self.now) }
        ensures number { kind_of self.now ≡ kind.Int → IsOk result }
    {
        match self {
            Value::Int(number) => Ok(Value::Int(*number)),
            Value::Text(text) => Ok(Value::Text(text.copy()?)),
        }
    }

    /// The order of two values of one kind: numbers by size, texts by bytes.
    pub fn cmp(&self, other: &Value) -> Ordering
        requires { kind_of self.now ≡ kind_of other.now }
        ensures { result ≡ value_cmp self.now other.now }
    {
        match (self, other) {
            (Value::Int(a), Value::Int(b)) => a.cmp(b),
            (Value::Text(a), Value::Text(b)) => a.bytes().cmp(b.bytes()),
            _ => unreachable!(),
        }
    }

    /// Appends the decimal number, with `-` before a negative one, or the bytes of the text as they are.
    ///
    /// # Errors
    ///
    /// - `Memory`: at any call; the buffer is as before.
    pub fn print(&self, into: &mut Vec<u8>) -> Result<(), Memory>
        ensures ok { OnOk result (into.new.items ≡ into.old.items ++ printed self.now) }
        ensures err { OnErr result (into.new.items ≡ into.old.items) }
    {
        match self {
            Value::Int(number) => {
                let digits = number.to_string(*into.allocator())?;
                into.extend_from_slice(digits.as_bytes())?;
            }
            Value::Text(text) => into.extend_from_slice(text.bytes())?,
        }
        Ok(())
    }
}
