ghost use Rattle.std.specs.Prelude.{◌≡◌, ◌<◌, ◌≤◌, length, slice_set};
ghost use Rattle.std.specs.List.{AllByRecursion};
ghost use Rattle.rs_rank.specs.Weights.{IsWeights};
ghost use Rattle.rs_query.specs.Answers.{weights_of};

use crate::block::Block;
use rs_rank::Weights;

impl Block {
    /// The weights of the terms and their maxima, each 0 past the last term. It takes no memory.
    pub fn weights(&self) -> Weights
        requires few { length self.now.terms ≤ 8 }
        requires limits { AllByRecursion (λ t. t.weight ≤ 1000000) self.now.terms }
        ensures value { result ≡ weights_of self.now }
        ensures limits { IsWeights result }
    {
        let mut weights = Weights {
            weight: [0; 8],
            max: [0; 8],
        };
        for (place, term) in self.terms.items().iter().enumerate() {
            put(&mut weights, place, term.weight, term.max);
        }
        weights
    }
}

/// Puts a weight and a maximum at a place.
fn put(weights: &mut Weights, place: usize, weight: u32, max: u32)
    requires { place < 8 }
    ensures weight { weights.new.weight ≡ slice_set weights.old.weight place weight }
    ensures max { weights.new.max ≡ slice_set weights.old.max place max }
    ensures limit { max ≤ 4294967295 }
{
    weights.weight[place] = weight;
    weights.max[place] = max;
}
