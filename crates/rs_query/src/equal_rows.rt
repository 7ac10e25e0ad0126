//! Rows with equal cells, which are found without a look at the others.

ghost use Rattle.std.specs.Prelude.{◌≡◌, ◌<◌, ◌≤◌, ◌-◌, ◌^◌, ℕ, IfOk, OnOk, Some, length, slice_get, unwrap_or};
ghost use Rattle.std.specs.BTreeMap.{get};
ghost use Rattle.rs_query.specs.EqualRows.{AreEnds, AreFirst, AreNextBehind, HasKey, IsNext, LeadOn, end_of};

use rs_value::Memory;
use std::alloc::Global;
use std::collections::BTreeMap;

/// For each row of a column, which rows of another column have an equal cell. Rows count from 1, and 0 stands for no row.
#[derive(Drop)]
pub(crate) struct EqualRows {
    /// For each row of the one column the first row of the other one that has an equal cell.
    pub first: Vec<u32>,
    /// For each row of the other column the next row of it that has an equal cell.
    pub next: Vec<u32>,
}

impl EqualRows {
    /// The rows of two columns whose cells have these keys.
    pub fn of<K: Ord + Drop>(
        alloc: Global,
        lefts: &[K],
        rights: Vec<K>,
    ) -> Result<EqualRows, Memory>
        requires { length rights.items < 2 ^ 32 }
        ensures first { IfOk result (λ rows. AreFirst K.cmp lefts.now rights.items rows.first.items) }
        ensures next { IfOk result (λ rows. AreNextBehind K.cmp 0 rights.items rows.next.items) }
        ensures lefts { IfOk result (λ rows. length rows.first.items ≡ length lefts.now) }
        ensures rights { IfOk result (λ rows. length rows.next.items ≡ length rights.items) }
    {
        let mut firsts = BTreeMap::new(alloc);
        let next = next_rows(alloc, rights, &mut firsts)?;
        let first = first_rows(alloc, lefts, &firsts)?;
        Ok(EqualRows { first, next })
    }

    /// The first row with a cell equal to that of a row of the one column, or 0.
    pub fn first(&self, row: u32) -> u32
        requires least { 1 ≤ row }
        requires most { row ≤ length self.now.first.items }
        ensures { result ≡ unwrap_or (slice_get self.now.first.items (row - 1)) 0 }
    {
        self.first[row as usize - 1]
    }

    /// The next row with a cell equal to that of a row of the other column, or 0.
    pub fn next(&self, row: u32) -> u32
        requires least { 1 ≤ row }
        requires most { row ≤ length self.now.next.items }
        ensures { result ≡ unwrap_or (slice_get self.now.next.items (row - 1)) 0 }
    {
        self.next[row as usize - 1]
    }

    /// For each row of the one column, and for each row of the other one, the last row of the other one that has an equal cell, or 0.
    /// So two rows have the same number exactly where their cells are equal.
    pub fn ends(self) -> (Vec<u32>, Vec<u32>)
        requires few { length self.next.items < 2 ^ 32 }
        requires within { (row : ℕ) → 1 ≤ row → row ≤ length self.first.items → unwrap_or (slice_get self.first.items (row - 1)) 0 ≤ length self.next.items }
        requires lead { LeadOn self.next.items }
        ensures firsts { (row : ℕ) → 1 ≤ row → row ≤ length self.first.items
            → unwrap_or (slice_get result.0.items (row - 1)) 0 ≡ end_of result.1.items (unwrap_or (slice_get self.first.items (row - 1)) 0) 0 }
        ensures nexts { AreEnds self.next.items result.1.items }
        ensures first_sized { length result.0.items ≡ length self.first.items }
        ensures next_sized { length result.1.items ≡ length self.next.items }
    {
        let ends = next_ends(self.next);
        let firsts = first_ends(self.first, &ends);
        (firsts, ends)
    }
}

/// For each row the next row with an equal key. The map is empty, and is made that of the first row of each key.
fn next_rows<K: Ord + Drop>(
    alloc: Global,
    mut keys: Vec<K>,
    firsts: &mut BTreeMap<K, u32>,
) -> Result<Vec<u32>, Memory>
    requires few { length keys.items < 2 ^ 32 }
    requires empty { (key : K) → unwrap_or (get K.cmp firsts.old key) 0 ≡ 0 }
    ensures firsts { OnOk result ((key : K) → IsNext (HasKey K.cmp keys.items key) 0 (length keys.items) (unwrap_or (get K.cmp firsts.new key) 0)) }
    ensures next { IfOk result (λ rows. AreNextBehind K.cmp 0 keys.items rows.items) }
    ensures sized { IfOk result (λ rows. length rows.items ≡ length keys.items) }
{
    let mut next = vec![in alloc; 0; keys.len()]?;
    while let Some(key) = keys.pop() {
        let place = keys.len();
        next[place] = firsts.insert(key, place as u32 + 1)?.unwrap_or(0);
    }
    Ok(next)
}

/// For each key the first row that has it.
fn first_rows<K: Ord + Drop>(
    alloc: Global,
    keys: &[K],
    firsts: &BTreeMap<K, u32>,
) -> Result<Vec<u32>, Memory>
    ensures sized { IfOk result (λ rows. length rows.items ≡ length keys.now) }
    ensures rows { IfOk result (λ rows. (place : ℕ) (key : K) → slice_get keys.now place ≡ Some key
        → unwrap_or (slice_get rows.items place) 0 ≡ unwrap_or (get K.cmp firsts.now key) 0) }
{
    let mut first = Vec::new(alloc);
    for key in keys {
        first.push(firsts.get(key).copied().unwrap_or(0))?;
    }
    Ok(first)
}

/// For each row the last one of those that follow it.
fn next_ends(mut next: Vec<u32>) -> Vec<u32>
    requires few { length next.items < 2 ^ 32 }
    requires lead { LeadOn next.items }
    ensures ends { AreEnds next.items result.items }
    ensures sized { length result.items ≡ length next.items }
{
    let mut place = next.len();
    while place > 0 {
        place -= 1;
        let end = end_of(&next, next[place], place as u32 + 1);
        next[place] = end;
    }
    next
}

/// For each row the end of its first row, or 0.
fn first_ends(mut first: Vec<u32>, ends: &[u32]) -> Vec<u32>
    requires { (row : ℕ) → 1 ≤ row → row ≤ length first.items → unwrap_or (slice_get first.items (row - 1)) 0 ≤ length ends.now }
    ensures ends { (row : ℕ) → 1 ≤ row → row ≤ length first.items
        → unwrap_or (slice_get result.items (row - 1)) 0 ≡ end_of ends.now (unwrap_or (slice_get first.items (row - 1)) 0) 0 }
    ensures sized { length result.items ≡ length first.items }
{
    for place in 0..first.len() {
        let end = end_of(ends, first[place], 0);
        first[place] = end;
    }
    first
}

/// The end that a row has, or another one where the row is 0.
fn end_of(ends: &[u32], row: u32, other: u32) -> u32
    requires { row ≤ length ends.now }
    ensures { result ≡ end_of ends.now row other }
{
    if row == 0 {
        other
    } else {
        ends[row as usize - 1]
    }
}

/// The keys, each behind the number of its row.
pub(crate) fn numbered<K: Copy + Drop>(
    alloc: Global,
    numbers: &[u32],
    keys: &[K],
) -> Result<Vec<(u32, K)>, Memory>
    requires { length keys.now ≤ length numbers.now }
    ensures sized { IfOk result (λ pairs. length pairs.items ≡ length keys.now) }
    ensures pairs { IfOk result (λ pairs. (place : ℕ) (pair : ℕ × K) → slice_get pairs.items place ≡ Some pair
        → (slice_get keys.now place ≡ Some pair.1) × (unwrap_or (slice_get numbers.now place) 0 ≡ pair.0)) }
{
    let mut pairs = Vec::new(alloc);
    for place in 0..keys.len() {
        pairs.push((numbers[place], keys[place]))?;
    }
    Ok(pairs)
}
