ghost use Rattle.std.specs.Prelude.{◌≡◌, ◌∷◌, [], slice_get};
ghost use Rattle.rs_exec.specs.Asked.{CanAskNode, NodeAsked};
ghost use Rattle.rs_exec.specs.Asking.{world_in};
ghost use Rattle.rs_exec.specs.Nodes.{at_or_past, counts_in, number_in, tally_in};
ghost use Rattle.rs_exec.specs.Standing.{Stands};

use crate::context::QueryContext;
use crate::distinct::{DistinctNode, next_distinct};
use crate::fault::ExecFault;
use crate::join::{JoinNode, next_joined};
use crate::rank::{RankNode, next_ranked};
use crate::scan::{IndexNode, TableNode};
use crate::set::{SetNode, next_combined};
use crate::tally::Tally;
use rs_expr::Scorer;
use rs_plan::Counts;
use rs_rank::RankRow;

/// A node of a plan that is executed, with all nodes below it.
#[derive(Drop)]
pub(crate) enum PlanNode {
    SeqScan(TableNode),
    RankScan(IndexNode),
    Rank(RankNode, Box<PlanNode>),
    Join(JoinNode, Box<PlanNode>, Box<PlanNode>),
    Distinct(DistinctNode, Box<PlanNode>),
    Set(SetNode, Box<PlanNode>, Box<PlanNode>),
}

impl PlanNode {
    /// The next row of the node's list. The nodes below are asked as often as it takes, and a rank operator calls the scorer
    /// for each row that comes from below.
    #[cycle(next)]
    pub(crate) fn next<S: Scorer>(
        &mut self,
        context: &QueryContext<'_>,
        scorer: &mut S,
    ) -> Result<Option<RankRow>, ExecFault>
        requires can { CanAskNode (world_in context.now (S.state scorer.old)) self.old }
        requires stands { Stands (world_in context.now (S.state scorer.old)) (number_in self.old) self.old }
        ensures { NodeAsked (world_in context.now (S.state scorer.old)) self.old self.new result (S.state scorer.old) (S.state scorer.new) }
    {
        match self {
            PlanNode::SeqScan(head) => Ok(head.next(context)),
            PlanNode::RankScan(head) => Ok(head.next(context)),
            PlanNode::Rank(head, child) => next_ranked(head, child, context, scorer),
            PlanNode::Join(head, left, right) => { next_joined(head, left, right, context, scorer) }
            PlanNode::Distinct(head, child) => { next_distinct(head, child, context, scorer) }
            PlanNode::Set(head, left, right) => {
                next_combined(head, left, right, context, scorer)
            }
        }
    }

    /// How often it was asked, and how many rows it gave.
    pub(crate) fn tally(&self) -> Tally
        ensures { result ≡ tally_in self.now }
    {
        match self {
            PlanNode::SeqScan(head) => head.tally,
            PlanNode::RankScan(head) => head.tally,
            PlanNode::Rank(head, _) => head.tally,
            PlanNode::Join(head, _, _) => head.tally,
            PlanNode::Distinct(head, _) => head.tally,
            PlanNode::Set(head, _, _) => head.tally,
        }
    }

    /// What the node at a place counts, in the order of a node before its children, and of the left one before the right one,
    /// from 0.
    pub(crate) fn counts_at(&self, place: u8) -> Option<Counts>
        ensures { result ≡ slice_get (counts_in self.now) place }
    {
        match self.counts_or_past(place) {
            Ok(counts) => Some(counts),
            Err(_) => None,
        }
    }

    /// The same; past the last node, by how many places.
    fn counts_or_past(&self, place: u8) -> Result<Counts, u8>
        ensures { result ≡ at_or_past (counts_in self.now) place }
    {
        match self {
            PlanNode::SeqScan(head) => counts_or_next(place, head.counts()),
            PlanNode::RankScan(head) => counts_or_next(place, head.counts()),
            PlanNode::Rank(head, child) => match counts_or_next(place, head.counts()) {
                Ok(counts) => Ok(counts),
                Err(place) => child.counts_or_past(place),
            },
            PlanNode::Join(head, left, right) => match counts_or_next(place, head.counts()) {
                Ok(counts) => Ok(counts),
                Err(place) => match left.counts_or_past(place) {
                    Ok(counts) => Ok(counts),
                    Err(place) => right.counts_or_past(place),
                },
            },
            PlanNode::Distinct(head, child) => match counts_or_next(place, head.counts()) {
                Ok(counts) => Ok(counts),
                Err(place) => child.counts_or_past(place),
            },
            PlanNode::Set(head, left, right) => match counts_or_next(place, head.counts()) {
                Ok(counts) => Ok(counts),
                Err(place) => match left.counts_or_past(place) {
                    Ok(counts) => Ok(counts),
                    Err(place) => right.counts_or_past(place),
                },
            },
        }
    }
}

/// The counts of a node, where the place is its own; else the place among the nodes behind it.
fn counts_or_next(place: u8, counts: Counts) -> Result<Counts, u8>
    ensures { result ≡ at_or_past (counts ∷ []) place }
{
    if place == 0 {
        Ok(counts)
    } else {
        Err(place - 1)
    }
}
