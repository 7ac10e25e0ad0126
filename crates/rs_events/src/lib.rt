//! What runs are made of: fetches of files, calls of a scorer and puts on standard output, one after another up to a halt. All
//! of it is said for any type of fault.
//!
//! Its promise: a put and a fetch do exactly their event, or as much of it as the fault tells, whatever the type of faults.
//! Events, runs, how far the events of a run were done, and with which status a run ends, are defined here.
#![tactic(auto)]

mod file;
mod halt_fault;
mod host;
mod objects;
mod put;
mod status;

pub use file::fetch_file;
pub use halt_fault::HaltFault;
pub use host::Host;
pub use objects::Objects;
pub use put::put_text;
pub use status::Status;
