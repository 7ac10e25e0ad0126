/// Which plans are meant: those of all entries of a block, by its number, or those that have the set operator of both blocks.
#[derive(Clone, Copy, Debug)]
pub(crate) enum Extent {
    Block { number: u8 },
    Both,
}
