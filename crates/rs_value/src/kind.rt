/// What a column holds: each of its cells is a value of this kind.
#[derive(Clone, Copy, Debug, PartialEq, Eq, Hash)]
pub enum Kind {
    Int,
    Text,
}
