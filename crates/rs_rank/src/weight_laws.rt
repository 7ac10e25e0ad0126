//! Laws of sums and bounds. The functions compute nothing; each is called for its contract.

ghost use Rattle.std.specs.Prelude.{◌≡◌, ◌≤◌, ◌+◌, ◌*◌, ◌-◌, ℕ, bit_or, false, List, length, slice_index};
ghost use Rattle.rs_rank.specs.declared.weights.Weights.{Weights};
ghost use Rattle.rs_rank.specs.Masks.{AreDisjoint, has_number, mask_of};
ghost use Rattle.rs_rank.specs.Weights.{IsBound, IsWeights, evaluated, greatest_score, most_evaluated, rest, score_limit};

/// A term is in a mask or outside it: both parts of the greatest score make it up.
pub fn terms_are_inside_or_outside()
    ensures { (weights : Weights) (terms : ℕ)
        → most_evaluated weights terms + rest weights terms ≡ greatest_score weights }
{}

/// No sum over at most eight terms passes 34,359,738,360,000,000: not what the terms in a mask give, not what the
/// others can give, and no bound.
pub fn no_sum_passes_the_limit()
    ensures inside { (weights : Weights) (terms : ℕ) → IsWeights weights → most_evaluated weights terms ≤ score_limit }
    ensures outside { (weights : Weights) (terms : ℕ) → IsWeights weights → rest weights terms ≤ score_limit }
    ensures bound { (weights : Weights) (terms number : ℕ) → IsWeights weights → IsBound weights terms number
        → number ≤ score_limit }
{}

/// A term that is evaluated in addition leaves the rest, and adds weight times worth.
pub fn one_more_term()
    ensures rest { (weights : Weights) (terms term : ℕ) → IsWeights weights → 1 ≤ term → term ≤ 8
        → has_number terms term ≡ false
        → rest weights terms
        ≡ slice_index weights.weight (term - 1) * slice_index weights.max (term - 1) + rest weights (bit_or terms (mask_of term)) }
    ensures evaluated { (weights : Weights) (terms term : ℕ) (worths : List ℕ) → IsWeights weights → 1 ≤ term → term ≤ 8
        → length worths ≡ 8 → has_number terms term ≡ false
        → evaluated weights (bit_or terms (mask_of term)) worths
        ≡ evaluated weights terms worths + slice_index weights.weight (term - 1) * slice_index worths (term - 1) }
{}

/// What the terms of two masks give together is the sum of what each gives, where no term is in both; and so it is of the
/// most that they can give.
pub fn terms_of_two_masks_add_up()
    ensures evaluated { (weights : Weights) (left right : ℕ) (worths : List ℕ) → AreDisjoint left right
        → evaluated weights (bit_or left right) worths ≡ evaluated weights left worths + evaluated weights right worths }
    ensures most { (weights : Weights) (left right : ℕ) → AreDisjoint left right
        → most_evaluated weights (bit_or left right) ≡ most_evaluated weights left + most_evaluated weights right }
{}
