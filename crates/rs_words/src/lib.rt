//! The words of the command line that work on ranked feeds and on certificates of their joins: what each fetches, puts and refuses.
//!
//! Its promise: a word makes exactly the events of its definition, up to a halt; its answer tells that halt; each side is drawn as
//! often as the thresholds of the join ask for, which is what `feed` puts; and a certificate that one word puts proves its pairs, so that
//! the other says yes to each such file of at most 33,554,432 bytes. The pairs of any two feeds can be put, or certified, by the calls that
//! the words make: each pair stands before any later draw, and no feed is drawn further than what was put, or certified, takes. The
//! certificate of the pairs that a join gave, where they are as many as are wanted or all that there are, is good, and its bytes are
//! read back as it.
#![tactic(auto)]

mod cert_of_join;
mod certificate;
mod certifying;
mod checking;
mod fault;
mod feed_file;
mod feeding;
mod joining;
mod laws;
mod lines;
mod putting;

pub use cert_of_join::{cert_of, write};
pub use certificate::certify;
pub use certifying::{cert_word, put_cert};
pub use checking::check_word;
pub use fault::{PairsFault, PutFault, WordFault};
pub use feeding::{feed_word, put_join};
pub use laws::{certificates_are_checked_as_good, given_pairs_are_good, next_pairs_are_given};
pub use putting::put_pairs;
