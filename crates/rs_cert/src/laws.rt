//! What certificates prove, and their records. The functions compute nothing; they are called for their contracts.

ghost use Rattle.std.specs.Prelude.{◌≡◌, List, Ok, Result, take};
ghost use Rattle.rs_cert.specs.declared.cert.Cert.{Cert};
ghost use Rattle.rs_cert.specs.declared.fault.CertFault.{CertFault};
ghost use Rattle.rs_cert.specs.declared.fault.CertFault.TheVariants as fault;
ghost use Rattle.rs_feed.specs.declared.feed_row.FeedRow.{FeedRow};
ghost use Rattle.rs_lines.specs.Records.{Fields};
ghost use Rattle.rs_cert.specs.Good.{IsGood, RightIsReached};
ghost use Rattle.rs_cert.specs.Pairs.{answers, numbers_of};
ghost use Rattle.rs_cert.specs.Records.{AreRecordsOf, IsRead};
ghost use Rattle.rs_cert.specs.Sound.{Continues, Counterexample, Determines, IsBelowLeft};
ghost use Rattle.rs_cert.specs.Verdicts.{IsVerdict};
ghost use Rattle.rs_cert.specs.declared.verdict.Verdict.TheVariants as verdict;
ghost use Rattle.rs_value.specs.Answer.{Gives};

/// Where no score of two feeds rises, and they begin with the rows of a good certificate and end where it says that a side has ended,
/// their first pairs, as many as are wanted, are its pairs.
pub fn good_certificates_are_sound()
    ensures { (cert : Cert) (lefts rights : List FeedRow) → IsGood cert → Continues cert.left lefts → Continues cert.right rights
        → numbers_of (take cert.k (answers lefts rights)) ≡ cert.pairs }
{}

/// A refusal of a certificate whose scores fall is deserved: there are two feeds that continue its sides, and whose first pairs are
/// others than its own. So its rows don't prove its pairs. Where its pairs are the first ones of its rows, as many as are wanted or all,
/// feeds without further rows have them, and these don't: the answer can't be known without a further draw.
///
/// These feeds have the rows of the certificate, and no more where its rows have other first pairs. Else one side that hasn't ended has
/// one row more, with the score of its last row, or 0, and the text of the first row of the other side. Where no side has a row, both
/// have one.
///
/// There is one exception: `Left` is also told where the sum of the last pair is that of the last left row and the first right one. Such
/// a certificate has such feeds exactly where its right side isn't reached either.
pub fn refusals_are_deserved()
    ensures pairs { (cert : Cert) → IsVerdict cert verdict.Pairs → Counterexample cert }
    ensures short { (cert : Cert) → IsVerdict cert verdict.Short → Counterexample cert }
    ensures left { (cert : Cert) → IsVerdict cert verdict.Left → IsBelowLeft cert → Counterexample cert }
    ensures right { (cert : Cert) → IsVerdict cert verdict.Right → Counterexample cert }
    ensures tied { (cert : Cert) → IsVerdict cert verdict.Left → ¬ IsBelowLeft cert → RightIsReached cert → Determines cert }
    ensures tied_unreached { (cert : Cert) → IsVerdict cert verdict.Left → ¬ RightIsReached cert → Counterexample cert }
{}

/// The records of a certificate are those of no other one, and are read as it. So what is written of a certificate is read back as it.
pub fn records_are_of_one_certificate()
    ensures one { (a b : Cert) (records : List Fields) → AreRecordsOf a records → AreRecordsOf b records → a ≡ b }
    ensures read { (cert : Cert) (records : List Fields) (result : Result Cert CertFault) → AreRecordsOf cert records → IsRead records result → Gives fault.Memory (Ok cert) result }
{}
