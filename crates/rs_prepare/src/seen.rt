ghost use Rattle.rs_prepare.specs.Seeing.{Refuses, RefusesError, RefusesOne};

use crate::node::Node;
use crate::open_fault::{OpenFault, Stream};

/// The files that are open already.
#[derive(Clone, Copy, Debug)]
pub struct Seen {
    pub output: Option<Node>,
    pub error: Option<Node>,
    pub scores: Option<Node>,
    pub questions: Option<Node>,
}

/// Refuses a file that is this one.
fn unless_one(node: Option<Node>, other: Option<Node>, stream: Stream) -> Result<(), OpenFault>
    ensures { RefusesOne node other stream result }
{
    let (Some(node), Some(other)) = (node, other) else {
        return Ok(());
    };
    if node == other {
        Err(OpenFault::OneFile(stream))
    } else {
        Ok(())
    }
}

impl Seen {
    /// Refuses a file that is standard output, or one of those that were opened.
    ///
    /// # Errors
    ///
    /// - `OneFile`, `Output`, `Scores`, `Questions`: exactly where it is that one, and none of those before it.
    /// - `Error`, `Missing`, `InUse`, `Failed`, `Memory`: never.
    pub(crate) fn refuse(&self, node: Option<Node>) -> Result<(), OpenFault>
        ensures { Refuses self.now node result }
    {
        unless_one(node, self.output, Stream::Output)?;
        unless_one(node, self.scores, Stream::Scores)?;
        unless_one(node, self.questions, Stream::Questions)
    }

    /// Refuses a file that is standard error.
    ///
    /// # Errors
    ///
    /// - `OneFile`, `Error`: exactly where it is that one.
    /// - `Output`, `Scores`, `Questions`, `Missing`, `InUse`, `Failed`, `Memory`: never.
    pub(crate) fn refuse_error(&self, node: Option<Node>) -> Result<(), OpenFault>
        ensures { RefusesError self.now node result }
    {
        unless_one(node, self.error, Stream::Error)
    }
}
