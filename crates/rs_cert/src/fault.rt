use rs_value::Memory;

/// Why bytes are no certificate.
#[derive(Clone, Copy, Debug, PartialEq, Eq)]
pub enum CertFault {
    /// The records of no certificate begin with those up to this one, and with this one. Records are counted from 1; of a file without
    /// records it is 1.
    Form { place: u32 },
    /// There is no memory for the certificate.
    Memory,
}

impl From<Memory> for CertFault {
    ghost use Rattle.std.specs.Prelude.{◌≡◌};
    ghost use Rattle.rs_cert.specs.declared.fault.CertFault.TheVariants as fault;

    ghost from_gives = { λ memory given. given ≡ fault.Memory };

    fn from(_memory: Memory) -> CertFault {
        CertFault::Memory
    }
}
