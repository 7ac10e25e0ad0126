ghost use Rattle.std.specs.Prelude.{◌≡◌, ◌<◌, ◌≤◌, ◌*◌, ◌/◌, ◌%◌, ◌^◌, ◌==◌, slice_index, if◌then◌else◌};
ghost use Rattle.rs_rank.specs.Weights.{IsWeights, rest, score_limit};

/// The weights of a query's terms, and what the worth of each is at most while it isn't evaluated. Both are 0 past the
/// last term.
///
/// A weight is at most 1,000,000. The maximum of a term serves bounds alone; which scores are allowed is for others
/// to say.
#[derive(Clone, Copy, Debug, PartialEq, Eq)]
pub struct Weights {
    pub weight: [u32; 8],
    pub max: [u32; 8],
}

impl Weights {
    /// What the terms outside the mask can give to a score at most: the sum of weight times maximum over them.
    pub fn rest(&self, terms: u8) -> u64
        requires { IsWeights self.now }
        ensures value { result ≡ rest self.now terms }
        ensures limit { result ≤ score_limit }
    {
        let mut sum = 0;
        for place in 0..8 {
            sum += self.rest_at(terms, place);
        }
        sum
    }

    /// What the term at a place from 0 can give to a score, if it is outside the mask.
    fn rest_at(&self, terms: u8, place: usize) -> u64
        requires { place < 8 }
        ensures { result ≡ (if terms / 2 ^ place % 2 == 1 then 0
            else slice_index self.now.weight place * slice_index self.now.max place) }
    {
        if (terms >> place) % 2 == 1 {
            return 0;
        }
        u64::from(self.weight[place]) * u64::from(self.max[place])
    }
}
