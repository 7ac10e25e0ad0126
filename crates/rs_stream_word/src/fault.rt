ghost use Rattle.std.specs.Prelude.{◌≡◌, IfOk, Option};
ghost use Rattle.std.specs.String.{string_bytes};
ghost use Rattle.rs_stream_word.specs.Faults as told;
ghost use Rattle.rs_stream_word.specs.Faults.{fault_line, name_of, status_of};

use rs_feed_join::JoinFault;
use rs_stream::StreamFault;
use rs_value::{Memory, Text};
use rs_words::PutFault;
use std::alloc::Global;

/// What ends the word early. Sides are 1, the left one, and 2.
#[derive(Clone, Copy, Debug, PartialEq, Eq)]
pub enum StreamsFault {
    /// A stream gives no more rows, though its record `end,end` didn't come.
    Stream {
        side: u8,
        fault: StreamFault,
    },
    /// The score of a drawn row, `got`, is greater than that of the row before it. Rows are counted from 1.
    Order {
        side: u8,
        row: u32,
        before: u32,
        got: u32,
    },
    /// A stream gave one row more than a join takes.
    TooLong {
        side: u8,
    },
    /// Standard output failed.
    Write,
    Memory,
}

/// The fault of a stream whose draw failed.
fn stream_fault(side: u8, left: Option<StreamFault>, right: Option<StreamFault>) -> StreamsFault
    ensures { result ≡ told.stream_fault side left right }
{
    let why = if side == 1 { left } else { right };
    match why {
        Some(fault) => StreamsFault::Stream { side, fault },
        None => StreamsFault::Memory,
    }
}

/// The fault of a join of two streams, of which these say why they give no more rows.
pub(crate) fn join_fault(
    why: JoinFault,
    left: Option<StreamFault>,
    right: Option<StreamFault>,
) -> StreamsFault
    ensures { result ≡ told.join_fault why left right }
{
    match why {
        JoinFault::OutOfOrder {
            side,
            row,
            before,
            got,
        } => StreamsFault::Order {
            side,
            row,
            before,
            got,
        },
        JoinFault::Failed { side } => stream_fault(side, left, right),
        JoinFault::TooLong { side } => StreamsFault::TooLong { side },
        JoinFault::Memory => StreamsFault::Memory,
        JoinFault::Broken => StreamsFault::Memory,
    }
}

/// The fault of a put.
pub(crate) fn put_fault(why: PutFault) -> StreamsFault
    ensures { result ≡ told.put_fault why }
{
    match why {
        PutFault::Write => StreamsFault::Write,
        PutFault::Memory => StreamsFault::Memory,
    }
}

/// The status of a stream that gives no more rows.
fn stream_status(why: StreamFault) -> u8
    ensures { result ≡ told.stream_status why }
{
    match why {
        StreamFault::Failed => 3,
        StreamFault::BrokenOff => 3,
        StreamFault::Header => 6,
        StreamFault::NoRow { .. } => 6,
        StreamFault::Range { .. } => 7,
        StreamFault::Memory => 1,
    }
}

/// The name of a stream by its side.
fn name_of<'a>(left: &'a Text, right: &'a Text, side: u8) -> &'a Text
    ensures { result.now ≡ name_of left.now right.now side }
{
    if side == 1 { left } else { right }
}

/// The line of a stream that was not read to its end.
fn read_line(alloc: Global, name: &Text, why: &str) -> Result<String, Memory>
    ensures { IfOk result (λ line. string_bytes line ≡ told.read_line name.now why.now) }
{
    let name = name.as_str();
    Ok(format!(in alloc; "read: {name}: {why}\n")?)
}

/// The line of a stream that is no ranked feed.
fn table_line(alloc: Global, name: &Text, why: &str) -> Result<String, Memory>
    ensures { IfOk result (λ line. string_bytes line ≡ told.table_line name.now why.now) }
{
    let name = name.as_str();
    Ok(format!(in alloc; "table: {name}: {why}\n")?)
}

/// The line of a record that is no row.
fn no_row_line(alloc: Global, name: &Text, number: u64) -> Result<String, Memory>
    ensures { IfOk result (λ line. string_bytes line ≡ told.no_row_line name.now number) }
{
    let name = name.as_str();
    Ok(format!(in alloc; "table: {name}: NoRow record {number}\n")?)
}

/// The line of a record whose number is no score.
fn range_line(alloc: Global, name: &Text, number: u64, got: i64) -> Result<String, Memory>
    ensures { IfOk result (λ line. string_bytes line ≡ told.range_line name.now number got) }
{
    let name = name.as_str();
    Ok(format!(in alloc; "score: {name} record {number}: {got} is not in 0..4294967295\n")?)
}

/// The line of a row that is out of order.
fn order_line(alloc: Global, name: &Text, row: u32, before: u32, got: u32) -> Result<String, Memory>
    ensures { IfOk result (λ line. string_bytes line ≡ told.order_line name.now row before got) }
{
    let name = name.as_str();
    Ok(format!(in alloc; "table: {name}: OutOfOrder row {row} before {before} got {got}\n")?)
}

/// The line of a stream that gives no more rows.
fn stream_line(alloc: Global, name: &Text, why: StreamFault) -> Result<String, Memory>
    ensures { IfOk result (λ line. string_bytes line ≡ told.stream_line name.now why) }
{
    match why {
        StreamFault::Failed => read_line(alloc, name, "failed"),
        StreamFault::BrokenOff => read_line(alloc, name, "broken off"),
        StreamFault::Header => table_line(alloc, name, "Header"),
        StreamFault::NoRow { record } => no_row_line(alloc, name, record),
        StreamFault::Range { record, got } => range_line(alloc, name, record, got),
        StreamFault::Memory => Ok(String::from_str(alloc, "memory\n")?),
    }
}

impl StreamsFault {
    /// The exit status of a program that ends with this fault.
    pub fn status(&self) -> u8
        ensures { result ≡ status_of self.now }
    {
        match self {
            StreamsFault::Stream { fault, .. } => stream_status(*fault),
            StreamsFault::Order { .. } => 6,
            StreamsFault::TooLong { .. } => 6,
            StreamsFault::Write => 4,
            StreamsFault::Memory => 1,
        }
    }

    /// The fault's line for standard error, by the names of both streams.
    ///
    /// # Errors
    ///
    /// - `Memory`: at any call.
    pub fn line(&self, alloc: Global, left: &Text, right: &Text) -> Result<String, Memory>
        ensures { IfOk result (λ line. string_bytes line ≡ fault_line left.now right.now self.now) }
    {
        match self {
            StreamsFault::Stream { side, fault } => stream_line(
                alloc,
                name_of(left, right, *side),
                *fault,
            ),
            StreamsFault::Order {
                side,
                row,
                before,
                got,
            } => order_line(alloc, name_of(left, right, *side), *row, *before, *got),
            StreamsFault::TooLong { side } => {
                table_line(alloc, name_of(left, right, *side), "TooManyRows")
            }
            StreamsFault::Write => Ok(String::from_str(alloc, "write\n")?),
            StreamsFault::Memory => Ok(String::from_str(alloc, "memory\n")?),
        }
    }
}
