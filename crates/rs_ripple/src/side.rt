ghost use Rattle.std.specs.Prelude.{◌≡◌};
ghost use Rattle.rs_ripple.specs.Ripple.{drawn, ended, new_input};

use rs_rank::Key;

/// A side of a join: the FROM entries of its rows, and the terms that are evaluated on them. Both are masks.
#[derive(Clone, Copy, Debug, PartialEq, Eq)]
pub struct Side {
    pub mask: u8,
    pub terms: u8,
}

/// The first and the last key drawn of a side.
#[derive(Clone, Copy)]
pub struct Drawn {
    pub first: Key,
    pub last: Key,
}

/// A side, the keys drawn of it, and whether it has no more rows.
#[derive(Clone, Copy)]
pub struct Input {
    pub side: Side,
    pub drawn: Option<Drawn>,
    pub ended: bool,
}

impl Input {
    /// A side of which nothing is drawn.
    pub fn new(side: Side) -> Input
        ensures { result ≡ new_input side }
    {
        Input {
            side,
            drawn: None,
            ended: false,
        }
    }

    /// Takes the side's next key.
    pub fn draw(&mut self, key: Key)
        ensures { self.new ≡ drawn key self.old }
    {
        let first = match &self.drawn {
            Some(drawn) => drawn.first,
            None => key,
        };
        self.drawn = Some(Drawn { first, last: key });
    }

    /// The side has no more rows.
    pub fn end(&mut self)
        ensures { self.new ≡ ended self.old }
    {
        self.ended = true;
    }
}
