//! Small certificates of which each byte is changed to each other value. The numbers are those of checks/cases/certificates.py.

ghost use Rattle.std.specs.Prelude.{◌<◌, ◌^◌, IfOk, length};

use rs_cert::{Cert, CertFault, Verdict, check, read_cert};
use rs_value::Memory;
use std::alloc::Global;
use std::test::Fail;

const FIRST: &[u8] = b"cert,1,1\nleft,9,a\nleft,8,b\nright,9,b\nright,6,a\npair,2,1\n";

const WHOLE: &[u8] = b"cert,1,3\nleft,7,a\nleft,end,end\nright,5,a\nright,end,end\npair,1,1\n";

// The kinds of answers: the verdicts in their order, and last that the bytes are no certificate.
const FORM: usize = 6;

// How many bytes are changed at most.
const MOST_BYTES: usize = 1_000;

/// How often each kind of answer came, and the sum of the records that were named.
#[derive(Clone, Copy)]
struct Counts {
    kinds: [u64; 7],
    places: u64,
}

fn kind_of(verdict: Verdict) -> usize
    ensures { result < 7 }
{
    match verdict {
        Verdict::Yes => 0,
        Verdict::Order { .. } => 1,
        Verdict::Pairs => 2,
        Verdict::Short => 3,
        Verdict::Left => 4,
        Verdict::Right => 5,
    }
}

/// The kind of the answer of a check, none where there are more rows than a test has.
fn checked(alloc: Global, cert: &Cert) -> Result<usize, Memory>
    ensures { IfOk result (λ kind. kind < 7) }
{
    if cert.left.rows.len() > MOST_BYTES || cert.right.rows.len() > MOST_BYTES {
        return Err(Memory);
    }
    Ok(kind_of(check(alloc, cert)?))
}

/// The kind of the answer on these bytes, and the record that is named, 0 where none is.
fn answer_on(alloc: Global, bytes: &[u8]) -> Result<(usize, u32), Memory>
    requires { length bytes.now < 2 ^ 16 }
    ensures { IfOk result (λ answer. answer.0 < 7) }
{
    match read_cert(alloc, bytes) {
        Ok(cert) => Ok((checked(alloc, &cert)?, 0)),
        Err(CertFault::Form { place }) => Ok((FORM, place)),
        Err(CertFault::Memory) => Err(Memory),
    }
}

impl Counts {
    /// Counts the answer on bytes of which one is changed.
    fn count(&mut self, alloc: Global, bytes: &[u8]) -> Result<(), Memory>
        requires { length bytes.now < 2 ^ 16 }
    {
        let (kind, place) = answer_on(alloc, bytes)?;
        self.kinds[kind] = self.kinds[kind].saturating_add(1);
        self.places = self.places.saturating_add(u64::from(place));
        Ok(())
    }
}

/// Counts the answers where each byte is changed to each other value.
fn counts_of(alloc: Global, bytes: &[u8]) -> Result<Counts, Fail>
    requires { length bytes.now < 2 ^ 16 }
{
    let mut counts = Counts {
        kinds: [0; 7],
        places: 0,
    };
    let mut changed = bytes.to_vec(alloc)?;
    for (place, byte) in bytes.iter().enumerate() {
        for other in 0..256u16 {
            let other = other as u8;
            if other != *byte {
                changed[place] = other;
                counts.count(alloc, &changed)?;
            }
        }
        changed[place] = *byte;
    }
    Ok(counts)
}

#[test]
fn of_the_first_pair(rt: HostRuntime) -> Result<(), Fail> {
    let counts = counts_of(rt.alloc(), FIRST)?;
    assert_eq!(rt; counts.kinds, [266, 14, 291, 12, 0, 0, 13697]);
    assert_eq!(rt; counts.places, 48402);
    Ok(())
}

#[test]
fn of_all_pairs(rt: HostRuntime) -> Result<(), Fail> {
    let counts = counts_of(rt.alloc(), WHOLE)?;
    assert_eq!(rt; counts.kinds, [32, 0, 279, 2, 0, 0, 16007]);
    assert_eq!(rt; counts.places, 57642);
    Ok(())
}
