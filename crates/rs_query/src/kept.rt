use rs_value::Value;
use std::alloc::Global;
use std::marker::Model;

/// A list that is kept from call to call for its memory, so that a call takes none once the list has grown. Clauses don't see what
/// is in it: each call makes that anew.
#[derive(Drop)]
pub struct KeptList {
    values: Vec<Value>,
}

impl Model for KeptList {
    ghost use Rattle.std.specs.Prelude.{⊤};

    ghost Value = { ⊤ };

    ghost view = { λ _. tt };
}

impl KeptList {
    /// An empty list, without memory.
    pub fn new(alloc: Global) -> KeptList {
        KeptList {
            values: Vec::new(alloc),
        }
    }

    /// The list, to be filled.
    pub fn list(&mut self) -> &mut Vec<Value> {
        &mut self.values
    }
}
