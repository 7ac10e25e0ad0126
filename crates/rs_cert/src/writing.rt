ghost use Rattle.std.specs.Prelude.{◌≡◌, ◌∷◌, [], ◌≤◌, codes, IfOk, OnOk, map};
ghost use Rattle.csv.specs.Writing.{default_writer, row_text};
ghost use Rattle.rs_lines.specs.Records.{records_of};
ghost use Rattle.rs_cert.specs.Records.{AreRecordsOf, HasFewRows, most_wanted};
ghost use Rattle.rs_cert.specs.Writers.{IsReady, Wrote, text_in};
ghost use Rattle.rs_cert.specs.Written.{AreWritablePairs, AreWritableRows, IsWritablePair, IsWritableRow, end_records, pair_record, row_record, side_records, text_of, wanted_record, written};

use crate::cert::{Cert, CertSide};
use csv::{ByteRecord, Writer, WriterBuilder};
use itoa::Buffer;
use rs_feed::FeedRow;
use rs_value::Memory;
use std::alloc::Global;

/// The bytes of a certificate, its records one behind another as `csv` writes them, which are read back as it.
///
/// # Errors
///
/// - `Memory`: at any call.
pub fn write(alloc: Global, cert: &Cert) -> Result<Vec<u8>, Memory>
    requires wanted { cert.now.k ≤ most_wanted }
    requires few { HasFewRows cert.now }
    ensures bytes { IfOk result (λ bytes. bytes.items ≡ written cert.now) }
    ensures read_back { IfOk result (λ bytes. AreRecordsOf cert.now (records_of bytes.items)) }
{
    let mut records = WrittenRecords::new(alloc);
    records.put_wanted(cert.k)?;
    records.put_side(b"left".as_slice(), &cert.left)?;
    records.put_side(b"right".as_slice(), &cert.right)?;
    records.put_pairs(cert.pairs.items())?;
    records.into_text()
}

/// Records that are written one behind another, all by one writer: a new one has a buffer to clear.
#[derive(Drop)]
struct WrittenRecords {
    fields: ByteRecord,
    writer: Writer<Vec<u8>>,
}

impl WrittenRecords {
    /// None yet.
    fn new(alloc: Global) -> WrittenRecords
        ensures ready { IsReady result.writer }
        ensures empty { text_in result.writer ≡ [] }
    {
        WrittenRecords {
            fields: ByteRecord::new(alloc),
            writer: WriterBuilder::new().from_writer(Vec::new(alloc)),
        }
    }

    /// Their text.
    fn into_text(self) -> Result<Vec<u8>, Memory>
        ensures { IfOk result (λ text. text.items ≡ text_in self.writer) }
    {
        match self.writer.into_inner() {
            Ok(text) => Ok(text),
            Err(_) => Err(Memory),
        }
    }

    /// Writes the record of how many pairs are wanted.
    fn put_wanted(&mut self, wanted: u32) -> Result<(), Memory>
        requires { IsReady self.old.writer }
        ensures { OnOk result (Wrote (text_of (wanted_record wanted ∷ [])) self.old.writer self.new.writer) }
    {
        let mut digits = Buffer::new();
        self.put(
            b"cert".as_slice(),
            b"1".as_slice(),
            digits.format(wanted).as_bytes(),
        )
    }

    /// Writes the records of a side with this name.
    fn put_side(&mut self, name: &[u8], side: &CertSide) -> Result<(), Memory>
        requires { IsReady self.old.writer }
        ensures records { OnOk result (Wrote (text_of (side_records name.now side.now)) self.old.writer self.new.writer) }
        ensures rows { OnOk result (AreWritableRows side.now.rows) }
    {
        self.put_rows(name, side.rows.items())?;
        self.put_end(name, side.ended)?;
        Ok(())
    }

    /// Writes the records of the rows of a side with this name.
    fn put_rows(&mut self, name: &[u8], rows: &[FeedRow]) -> Result<(), Memory>
        requires { IsReady self.old.writer }
        ensures records { OnOk result (Wrote (text_of (map (row_record name.now) rows.now)) self.old.writer self.new.writer) }
        ensures rows { OnOk result (AreWritableRows rows.now) }
    {
        for row in rows {
            self.put_row(name, row)?;
        }
        Ok(())
    }

    /// Writes the record of a row of a side with this name.
    fn put_row(&mut self, name: &[u8], row: &FeedRow) -> Result<(), Memory>
        requires { IsReady self.old.writer }
        ensures bytes { OnOk result (Wrote (row_text default_writer (row_record name.now row.now)) self.old.writer self.new.writer) }
        ensures fits { IsWritableRow row.now }
    {
        let mut digits = Buffer::new();
        self.put(name, digits.format(row.score).as_bytes(), row.join.bytes())
    }

    /// Writes the record of the end of a side with this name, if it ended.
    fn put_end(&mut self, name: &[u8], ended: bool) -> Result<(), Memory>
        requires { IsReady self.old.writer }
        ensures { OnOk result (Wrote (text_of (end_records name.now ended)) self.old.writer self.new.writer) }
    {
        if ended {
            self.put(name, b"end".as_slice(), b"end".as_slice())?;
        }
        Ok(())
    }

    /// Writes the records of the pairs.
    fn put_pairs(&mut self, pairs: &[(u32, u32)]) -> Result<(), Memory>
        requires { IsReady self.old.writer }
        ensures records { OnOk result (Wrote (text_of (map pair_record pairs.now)) self.old.writer self.new.writer) }
        ensures pairs { OnOk result (AreWritablePairs pairs.now) }
    {
        for pair in pairs {
            self.put_pair(pair)?;
        }
        Ok(())
    }

    /// Writes the record of a pair.
    fn put_pair(&mut self, pair: &(u32, u32)) -> Result<(), Memory>
        requires { IsReady self.old.writer }
        ensures bytes { OnOk result (Wrote (row_text default_writer (pair_record pair.now)) self.old.writer self.new.writer) }
        ensures fits { IsWritablePair pair.now }
    {
        let mut left = Buffer::new();
        let mut right = Buffer::new();
        self.put(
            b"pair".as_slice(),
            left.format(pair.0).as_bytes(),
            right.format(pair.1).as_bytes(),
        )
    }

    /// Writes a record of three fields, as the writer of `csv` writes it at its defaults.
    fn put(&mut self, first: &[u8], second: &[u8], third: &[u8]) -> Result<(), Memory>
        requires { IsReady self.old.writer }
        ensures { OnOk result (Wrote (row_text default_writer (first.now ∷ second.now ∷ third.now ∷ [])) self.old.writer self.new.writer) }
    {
        self.fields.clear();
        self.fields.push_field(first)?;
        self.fields.push_field(second)?;
        self.fields.push_field(third)?;
        if self.writer.write_byte_record(&self.fields).is_err() {
            return Err(Memory);
        }
        Ok(())
    }
}
