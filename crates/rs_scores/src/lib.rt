//! Scores that are known beforehand, for runs whose scores are asked for outside the process: a scorer over a table of known
//! scores, the file that such scores are kept in, and files that are fetched once.
//!
//! Its promise: a call of a predicate that is asked for is answered by its known score, and fails where there is none; every
//! other call has its formula's value; of a file of scores each record is read as its definition says, or the first one that is
//! refused is named; what is written of known scores is read back as they, also behind what a file has already; and where a
//! fetch of a name found a file, or that none is there, each later fetch of it finds the same.
#![tactic(auto)]

mod fault;
mod known;
mod known_file;
mod known_files;
mod known_score;
mod known_tables;
mod laws;
mod line;
mod names;
mod place;
mod question;
mod reading;
mod scores_fault;
mod table_scorer;

pub use fault::KnownFault;
pub use known::KnownScores;
pub use known_file::read_known;
pub use known_files::KnownFiles;
pub use known_score::KnownScore;
pub use known_tables::KnownTables;
pub use laws::{written_scores_are_never_missing, written_scores_are_read_back};
pub use names::names_in;
pub use question::Question;
pub use reading::{MOST_BYTES, read_scores};
pub use scores_fault::ScoresFault;
pub use table_scorer::TableScorer;
