// Why bytes can't be read.
ghost use Rattle.std.specs.Prelude.{◌≡◌, ◌≢◌, ◌↔◌, ◌⊎◌};

use std::io::ErrorKind;

/// Why a file or a reader can't be read.
#[derive(Debug, Clone, Copy, PartialEq, Eq)]
pub enum Unread {
    /// There is no such file.
    Missing,
    /// Reading it is not permitted.
    Forbidden,
    /// It is a folder.
    Folder,
    /// It has more bytes than may be read.
    TooLarge,
    /// Another reason, or one that is not known.
    Other,
}

impl Unread {
    /// Returns the reason for an error of this kind. No kind of error means that a limit is passed.
    pub fn by_kind(kind: ErrorKind) -> Self
        ensures missing { (result ≡ Unread.Missing) ↔ ((kind ≡ ErrorKind.NotFound) ⊎ (kind ≡ ErrorKind.NotADirectory)) }
        ensures forbidden { (result ≡ Unread.Forbidden) ↔ (kind ≡ ErrorKind.PermissionDenied) }
        ensures folder { (result ≡ Unread.Folder) ↔ (kind ≡ ErrorKind.IsADirectory) }
        ensures within { result ≢ Unread.TooLarge }
    {
        match kind {
            ErrorKind::NotFound | ErrorKind::NotADirectory => Unread::Missing,
            ErrorKind::PermissionDenied => Unread::Forbidden,
            ErrorKind::IsADirectory => Unread::Folder,
            _ => Unread::Other,
        }
    }
}
