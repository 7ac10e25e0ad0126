ghost use Rattle.std.specs.Prelude.{◌≡◌, IfOk, None, Some};
ghost use Rattle.std.specs.Bool.{MatchBool};
ghost use Rattle.rs_cert.specs.Growing.{is_untouched, new_cert, new_side, next_cert, next_side};

use crate::cert::{Cert, CertSide};
use crate::entry::{Entry, SideEntry};
use rs_feed::FeedRow;
use rs_value::{List, Memory};
use std::alloc::Global;
use std::marker::Model;

/// The most rows of a side.
pub const MOST_ROWS: usize = 8_192;

/// What was read of a side. Contracts see the side.
#[derive(Drop)]
struct SideDraft {
    rows: Vec<FeedRow>,
    ended: bool,
}

impl Model for SideDraft {
    ghost use Rattle.rs_cert.specs.declared.cert.CertSide.{CertSide};

    ghost Value = { CertSide };

    ghost view = { λ s. record { rows = s.rows.items; ended = s.ended } };
}

impl SideDraft {
    /// Nothing yet, and no memory.
    fn new(alloc: Global) -> SideDraft
        ensures { result ≡ new_side }
    {
        SideDraft {
            rows: Vec::new(alloc),
            ended: false,
        }
    }

    /// Adds an entry, and says whether it may stand there.
    fn add(&mut self, entry: SideEntry) -> Result<bool, Memory>
        ensures { IfOk result (λ added. MatchBool added (next_side self.old entry ≡ Some self.new) (next_side self.old entry ≡ None)) }
    {
        if self.ended {
            return Ok(false);
        }
        match entry {
            SideEntry::Row(row) => {
                if self.rows.len() >= MOST_ROWS {
                    return Ok(false);
                }
                self.rows.push(row)?;
            }
            SideEntry::End => self.ended = true,
        }
        Ok(true)
    }

    /// Whether nothing was read of the side.
    fn is_untouched(&self) -> bool
        ensures { result ≡ is_untouched self.now }
    {
        !self.ended && self.rows.is_empty()
    }

    /// The side.
    fn into_side(self) -> CertSide
        ensures { result ≡ self }
    {
        CertSide {
            rows: List::of(self.rows),
            ended: self.ended,
        }
    }
}

/// What was read of a certificate. Contracts see the certificate.
#[derive(Drop)]
pub(crate) struct CertDraft {
    k: u32,
    left: SideDraft,
    right: SideDraft,
    pairs: Vec<(u32, u32)>,
}

impl Model for CertDraft {
    ghost use Rattle.rs_cert.specs.declared.cert.Cert.{Cert};

    ghost Value = { Cert };

    ghost view = { λ d. record { k = d.k; left = d.left; right = d.right; pairs = d.pairs.items } };
}

impl CertDraft {
    /// Nothing but how many pairs are wanted. It takes no memory.
    pub(crate) fn new(alloc: Global, wanted: u32) -> CertDraft
        ensures { result ≡ new_cert wanted }
    {
        CertDraft {
            k: wanted,
            left: SideDraft::new(alloc),
            right: SideDraft::new(alloc),
            pairs: Vec::new(alloc),
        }
    }

    /// Adds what a record says, and says whether it may stand there.
    pub(crate) fn add(&mut self, entry: Entry) -> Result<bool, Memory>
        ensures { IfOk result (λ added. MatchBool added (next_cert self.old entry ≡ Some self.new) (next_cert self.old entry ≡ None)) }
    {
        match entry {
            Entry::OfLeft(entry) => {
                if !self.pairs.is_empty() || !self.right.is_untouched() {
                    return Ok(false);
                }
                self.left.add(entry)
            }
            Entry::OfRight(entry) => {
                if !self.pairs.is_empty() {
                    return Ok(false);
                }
                self.right.add(entry)
            }
            Entry::OfPair(left, right) => {
                self.pairs.push((left, right))?;
                Ok(true)
            }
        }
    }

    /// The certificate.
    pub(crate) fn into_cert(self) -> Cert
        ensures { result ≡ self }
    {
        Cert {
            k: self.k,
            left: self.left.into_side(),
            right: self.right.into_side(),
            pairs: List::of(self.pairs),
        }
    }
}
