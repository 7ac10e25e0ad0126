//! Rows of two sides with one output column, of numbers. The one term is half of the number.

ghost use Rattle.std.specs.Prelude.{◌≡◌, [], ◌∷◌, IfOk};
ghost use Rattle.rs_value.specs.declared.value.Value.TheVariants.{Int};

use rs_rank::{Ids, RankRow, Weights};
use rs_value::Value;
use std::alloc::{AllocError, Global};

// One term of weight 1 and at most 10.
pub const ONE_TERM: Weights = Weights {
    weight: [1, 0, 0, 0, 0, 0, 0, 0],
    max: [10, 0, 0, 0, 0, 0, 0, 0],
};

// A row of the left block, by its number and its score.
pub const fn left(number: u32, sum: u64) -> RankRow
    ensures { result ≡ record {
      ids = record { block = 1; mask = 1; rows = number ∷ 0 ∷ 0 ∷ 0 ∷ 0 ∷ 0 ∷ [] };
      sum = sum;
    } }
{
    RankRow {
        ids: Ids {
            block: 1,
            mask: 1,
            rows: [number, 0, 0, 0, 0, 0],
        },
        sum,
    }
}

// A row of the right block.
pub const fn right(number: u32, sum: u64) -> RankRow
    ensures { result ≡ record {
      ids = record { block = 2; mask = 1; rows = number ∷ 0 ∷ 0 ∷ 0 ∷ 0 ∷ 0 ∷ [] };
      sum = sum;
    } }
{
    RankRow {
        ids: Ids {
            block: 2,
            mask: 1,
            rows: [number, 0, 0, 0, 0, 0],
        },
        sum,
    }
}

// The output values of a row.
pub fn values(alloc: Global, number: i64) -> Result<Vec<Value>, AllocError>
    ensures { IfOk result (λ values. values.items ≡ Int number ∷ []) }
{
    Ok(vec![in alloc; Value::Int(number)]?)
}
