//! What the pairs that a join gave prove, and what the certificates that `cert` puts are worth. The functions compute nothing; they
//! are called for their contracts.

ghost use Rattle.std.specs.Prelude.{◌≡◌, ◌≤◌, ◌∷◌, [], ◌++◌, ℕ, List, None, Option, Some, length};
ghost use Rattle.rs_outside.specs.Files.{Contents, finds_in};
ghost use Rattle.rs_cert.specs.Good.{IsGood};
ghost use Rattle.rs_cert.specs.Records.{most_wanted};
ghost use Rattle.rs_feed_join.specs.Joins.{FeedJoinState, IsKept};
ghost use Rattle.rs_feed_join.specs.declared.feed_pair.FeedPair.{FeedPair};
ghost use Rattle.rs_events.specs.Events.{puts};
ghost use Rattle.rs_events.specs.Run.{Run};
ghost use Rattle.rs_words.specs.declared.fault.WordFault.{WordFault};
ghost use Rattle.rs_words.specs.Certifying.{IsCertRun};
ghost use Rattle.rs_words.specs.Certs.{AreEnough, AreGiven, Gave, cert_of};
ghost use Rattle.rs_words.specs.Checking.{IsCheckRun};
ghost use Rattle.rs_words.specs.FeedFiles.{file_limit};
ghost use Rattle.rs_words.specs.GoodCerts.{IsGoodCert, yes_run};
ghost use Rattle.rs_words.specs.TwoFeeds.{FeedWords};

/// The pairs that a join gave, where they are as many as are wanted, or fewer and the join said that there are no more, make a good
/// certificate with the rows that it drew. That holds also of a join that was asked again, and failed.
pub fn given_pairs_are_good()
    ensures { (join : FeedJoinState) (k : ℕ) (pairs : List (ℕ × ℕ)) → IsKept join → AreGiven join pairs → AreEnough join k pairs → IsGood (cert_of join k pairs) }
{}

/// A pair that the next call gives is behind those that were given before, and a call that gives none leaves them.
pub fn next_pairs_are_given()
    ensures given { (old new : FeedJoinState) (pair : FeedPair) (pairs : List (ℕ × ℕ)) → Gave old new (Some pair) → AreGiven old pairs → AreGiven new (pairs ++ (pair.left, pair.right) ∷ []) }
    ensures none { (old new : FeedJoinState) (pairs : List (ℕ × ℕ)) → Gave old new None → AreGiven old pairs → AreGiven new pairs }
{}

/// What the word `cert` puts is read back as a certificate for the pairs that were wanted, and it proves its answer. The word `check`
/// says yes to each such file that is within the limit of files.
pub fn certificates_are_checked_as_good()
    ensures good { (contents : Contents) (words : FeedWords) (run : Run WordFault) (bytes : List ℕ) → words.count ≤ most_wanted
        → IsCertRun (finds_in contents) words run → puts run.events ≡ bytes ∷ [] → IsGoodCert words.count bytes }
    ensures yes { (contents : Contents) (file bytes : List ℕ) (wanted : ℕ) (run : Run WordFault) → IsGoodCert wanted bytes
        → contents file ≡ Some (Some bytes) → length bytes ≤ file_limit → IsCheckRun (finds_in contents) file run → run ≡ yes_run file }
{}
