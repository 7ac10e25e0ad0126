ghost use Rattle.std.specs.Prelude.{◌<◌, ◌^◌, length};
ghost use Rattle.csv.specs.Records.{fields_of};
ghost use Rattle.rs_value.specs.Answer.{Gives};
ghost use Rattle.rs_lines.specs.Records.{records_of};
ghost use Rattle.rs_cert.specs.Growing.{Adds, cert_of};
ghost use Rattle.rs_cert.specs.Records.{IsRead};

use crate::cert::Cert;
use crate::draft::CertDraft;
use crate::entry::{entry_of, wanted_of};
use crate::fault::CertFault;
use csv::ByteRecord;
use rs_lines::{next_record, reader_of};
use std::alloc::Global;

/// The certificate whose records these bytes are, behind one byte order mark, or the first record that no certificate
/// has there. There is no limit of bytes, only fewer records than 2^32, so that each has a number.
///
/// # Errors
///
/// - `Form`: exactly where the records are those of no certificate, with the first one that no certificate has there,
///   and 1 where there is none.
/// - `Memory`: at any call, in place of each answer.
pub fn read_cert(alloc: Global, bytes: &[u8]) -> Result<Cert, CertFault>
    requires { length (records_of bytes.now) < 2 ^ 32 }
    ensures { IsRead (records_of bytes.now) result }
{
    read_records(alloc, bytes)
}

/// Reads record by record, until one is refused.
fn read_records(alloc: Global, bytes: &[u8]) -> Result<Cert, CertFault>
    requires { length (records_of bytes.now) < 2 ^ 32 }
    ensures { Gives CertFault.Memory (cert_of (records_of bytes.now)) result }
{
    let mut reader = reader_of(alloc, bytes);
    let mut fields = ByteRecord::new(alloc);
    if !next_record(&mut reader, &mut fields)? {
        return Err(CertFault::Form { place: 1 });
    }
    let Some(wanted) = wanted_of(&fields) else {
        return Err(CertFault::Form { place: 1 });
    };
    let mut draft = CertDraft::new(alloc, wanted);
    let mut place = 1;
    while next_record(&mut reader, &mut fields)? {
        place += 1;
        add_record(alloc, &mut draft, place, &fields)?;
    }
    Ok(draft.into_cert())
}

/// Adds the record of this number.
fn add_record(
    alloc: Global,
    draft: &mut CertDraft,
    place: u32,
    fields: &ByteRecord,
) -> Result<(), CertFault>
    ensures { Adds draft.old place (fields_of fields.now) result draft.new }
{
    let Some(entry) = entry_of(alloc, fields)? else {
        return Err(CertFault::Form { place });
    };
    if draft.add(entry)? {
        Ok(())
    } else {
        Err(CertFault::Form { place })
    }
}
