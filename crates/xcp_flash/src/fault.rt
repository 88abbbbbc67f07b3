//! What is wrong with a file of stored pages.
use thiserror::Error;

/// Why a file isn't restored: the first of these that is so.
#[derive(Clone, Copy, Debug, Error, PartialEq, Eq)]
pub enum FlashError {
    /// It doesn't begin as a file of stored pages of this version.
    #[error("it is no file of stored pages")]
    Head,
    /// It is of another layout's file: the digest in its head is another.
    #[error("the stored pages are another layout's")]
    Layout,
    /// It is cut short or too long, or has pages of other sizes than the segments.
    #[error("the file of stored pages is cut short, or has other sizes than the segments")]
    Size,
    /// The digest at its end isn't that of the bytes before it.
    #[error("the file of stored pages was altered")]
    Digest,
}
