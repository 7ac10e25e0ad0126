/// A row whose number is no score, which is one from 0 to 4,294,967,295. Rows are counted from 1.
#[derive(Clone, Copy, Debug, PartialEq, Eq)]
pub struct RangeFault {
    pub row: u32,
    pub got: i64,
}
