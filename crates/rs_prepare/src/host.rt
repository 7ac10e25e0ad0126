ghost use Rattle.std.specs.Prelude.{◌≡◌, IfErr, IfOk, IsSomeAnd, None};
ghost use Rattle.std.specs.Fs.{metadata_mode};
ghost use Rattle.rs_prepare.specs.Seeing.{file_kind};

use crate::node::{About, FileKind, Node};
use crate::system::System;
use rs_value::Text;
use std::fs::{self, File, Metadata, OpenOptions, TryLockError};
use std::io;
use std::os::unix::fs::MetadataExt;

/// The bits of a mode that have the kind of the file.
const KIND: u32 = 0o170000;

/// What kind of file has this mode.
fn file_kind(mode: u32) -> FileKind
    ensures { result ≡ file_kind mode }
{
    match mode & KIND {
        0o100000 => FileKind::Regular,
        0o010000 => FileKind::Fifo,
        0o020000 => FileKind::CharacterDevice,
        _ => FileKind::Other,
    }
}

/// What is told of a file by its metadata, where there is some. Contracts don't see what device and number these have.
fn about(metadata: io::Result<Metadata>) -> Option<About>
    ensures none { IfErr metadata (λ _. result ≡ None) }
    ensures kind { IfOk metadata (λ metadata. IsSomeAnd result (λ about. about.kind ≡ file_kind (metadata_mode metadata))) }
{
    let Ok(metadata) = metadata else {
        return None;
    };
    let node = Node {
        device: metadata.dev(),
        number: metadata.ino(),
    };
    Some(About {
        node,
        kind: file_kind(metadata.mode()),
    })
}

/// The system itself. It may answer anything: the standard library says nothing of its files.
impl System for HostRuntime {
    ghost use Rattle.rs_prepare.specs.Seeing.{tells_anything};

    type File = File;

    ghost tells = { tells_anything };

    fn open(&self, how: &OpenOptions, name: &Text) -> io::Result<File> {
        how.open(self, name.as_str())
    }

    fn open_file(&self, file: &File) -> Option<About> {
        about(file.metadata())
    }

    fn file_named(&self, name: &Text) -> Option<About> {
        about(fs::symlink_metadata(self, name.as_str()))
    }

    fn output(&self) -> Option<About> {
        about(fs::metadata(self, "/proc/self/fd/1"))
    }

    fn error(&self) -> Option<About> {
        about(fs::metadata(self, "/proc/self/fd/2"))
    }

    fn is_in_use(&self, file: &File) -> bool {
        matches!(file.try_lock(), Err(TryLockError::WouldBlock))
    }
}
