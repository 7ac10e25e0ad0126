//! The catalogue of a session: its tables, ranking predicates and rank indexes.
//!
//! Its promise: tables, predicates and rank indexes are found by name; making an index, and rows that join its table, make
//! exactly their calls, and its rows are in order; after a fault nothing has joined; and a snapshot stays as its catalogue grows.
#![tactic(auto)]

mod after;
mod catalog;
mod grow;
mod growth;
mod held;
mod index;
mod laws;
mod make;
mod merge;
mod ranked;
mod room;
mod snapshot;
mod snapshot_laws;

pub use catalog::Catalog;
pub use growth::GrowFault;
pub use held::indexes_go_on_to_hold_answers;
pub use index::{BoundArg, IndexDef, IndexFault};
pub use laws::rankings_are_in_order;
pub use make::score_for;
pub use room::{RoomFault, What};
pub use snapshot::Snapshot;
pub use snapshot_laws::{snapshots_hold_answers, snapshots_stay};
