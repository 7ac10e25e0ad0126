ghost use Rattle.std.specs.Prelude.{◌≡◌, OnOk, OnErr};
ghost use Rattle.rs_setop.specs.Reached.{fed, is_past};

use rs_outputs::Outputs;
use rs_value::{Memory, Value};
use std::alloc::Global;
use std::marker::Model;

/// How far the right side of INTERSECT or EXCEPT was drawn, and the output values of the rows that came.
#[derive(Drop)]
pub struct Reached {
    // The bound of the row that came last.
    last: Option<u64>,
    ended: bool,
    values: Outputs,
}

impl Model for Reached {
    ghost use Rattle.rs_setop.specs.Reached.{Reach};

    ghost Value = { Reach };

    ghost view = { λ r. record { last = r.last; ended = r.ended; values = r.values.lists } };
}

impl Reached {
    ghost use Rattle.std.specs.Prelude.{None, false, true, []};
    ghost use Rattle.rs_outputs.specs.Seen.{has_list};

    /// Nothing was drawn. It takes no memory.
    pub(crate) fn new(alloc: Global) -> Reached
        ensures { result ≡ record { last = None; ended = false; values = [] } }
    {
        Reached {
            last: None,
            ended: false,
            values: Outputs::new(alloc),
        }
    }

    /// Whether no row still to come has this bound or a greater one.
    pub(crate) fn is_past(&self, bound: u64) -> bool
        ensures { result ≡ is_past self.now bound }
    {
        if self.ended {
            return true;
        }
        match self.last {
            Some(last) => last < bound,
            None => false,
        }
    }

    /// Whether a row that came has these output values.
    pub(crate) fn has(&self, values: &[Value]) -> bool
        ensures { result ≡ has_list values.now self.now.values }
    {
        self.values.has(values)
    }

    /// Takes the next row's bound, and its output values.
    pub(crate) fn feed(&mut self, bound: u64, values: Vec<Value>) -> Result<(), Memory>
        ensures ok { OnOk result (self.new ≡ fed bound values.items self.old) }
        ensures err { OnErr result (self.new ≡ self.old) }
    {
        self.values.add(values)?;
        self.last = Some(bound);
        Ok(())
    }

    /// The side has no more rows.
    pub(crate) fn end(&mut self)
        ensures { self.new ≡ record self.old { ended = true } }
    {
        self.ended = true;
    }
}
