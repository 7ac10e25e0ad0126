ghost use Rattle.std.specs.Prelude.{◌≡◌, Some};
ghost use Rattle.std.specs.Option.{option_map};
ghost use Rattle.rs_setop.specs.Heads.{ask_of, first_of, is_left_first, no_heads, without_first};

use crate::held::{Head, HeldRow};
use rs_rank::JoinAsk;

/// The next rows of both sides of a union, as far as they are known.
#[derive(Drop)]
pub struct Heads {
    pub left: Head,
    pub right: Head,
}

impl Heads {
    /// No side was asked.
    pub(crate) fn new() -> Heads
        ensures { result ≡ no_heads }
    {
        Heads {
            left: Head::Unknown,
            right: Head::Unknown,
        }
    }

    /// The side whose next row isn't known, the left one first. Once both are, the first of the two rows can be taken.
    pub(crate) fn ask(&self) -> JoinAsk
        ensures { result ≡ ask_of self.now }
    {
        match (&self.left, &self.right) {
            (Head::Unknown, _) => JoinAsk::NeedLeft,
            (_, Head::Unknown) => JoinAsk::NeedRight,
            (Head::Ended, Head::Ended) => JoinAsk::End,
            (_, _) => JoinAsk::Ready,
        }
    }

    /// Whether the left side holds a row, and the right side none whose key comes before.
    fn is_left_first(&self) -> bool
        ensures { result ≡ is_left_first self.now }
    {
        match (&self.left, &self.right) {
            (Head::Held(left), Head::Held(right)) => left.key.cmp(&right.key).is_le(),
            (Head::Held(_), _) => true,
            (_, _) => false,
        }
    }

    /// Of the held rows the one whose key comes first.
    pub(crate) fn first(&self) -> Option<&HeldRow>
        ensures { option_map (λ held. held.now) result ≡ first_of self.now }
    {
        let head = if self.is_left_first() {
            &self.left
        } else {
            &self.right
        };
        match head {
            Head::Unknown => None,
            Head::Held(held) => Some(held),
            Head::Ended => None,
        }
    }

    /// Takes it out.
    pub(crate) fn take_first(&mut self) -> Option<HeldRow>
        ensures row { result ≡ first_of self.old }
        ensures left { self.new ≡ without_first self.old }
    {
        if self.is_left_first() {
            self.left.take()
        } else {
            self.right.take()
        }
    }
}
