ghost use Rattle.std.specs.Prelude.{◌≡◌};
ghost use Rattle.rs_prepare.specs.Seeing.{node_of};

/// What the system tells two files apart by.
#[derive(Clone, Copy, Debug, PartialEq, Eq)]
pub struct Node {
    pub device: u64,
    pub number: u64,
}

/// What kind of file it is.
#[derive(Clone, Copy, Debug, PartialEq, Eq)]
pub enum FileKind {
    Regular,
    Fifo,
    CharacterDevice,
    Other,
}

/// What the system tells of a file.
#[derive(Clone, Copy, Debug, PartialEq, Eq)]
pub struct About {
    pub node: Node,
    pub kind: FileKind,
}

/// The node of a file of which this is told. There is none where the system doesn't tell it, and none of a character device, such as
/// `/dev/null` or a terminal: what is written there isn't read there.
///
/// # Errors
///
/// - `None`: exactly then.
pub(crate) fn node_of(about: Option<About>) -> Option<Node>
    ensures { result ≡ node_of about }
{
    let About { node, kind } = about?;
    if node.number == 0 || kind == FileKind::CharacterDevice {
        return None;
    }
    Some(node)
}
