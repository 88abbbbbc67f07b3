//! What a slave has beyond others, where its layout asks for it.
ghost use Rattle.std.specs.Prelude.{◌≡◌, ◌≢◌, ◌≤◌, ◌<◌, ◌⊎◌, ◌↔◌, length, MatchBool, All, IfOk, IfSome, None, true};
ghost use Rattle.xcp_memory.specs.Layout.{IsPrintable, epk, description, with_file};
ghost use Rattle.xcp_memory.specs.LayoutParts.{extras_of};
ghost use Rattle.xcp_memory.specs.Limits.{is_text_or_none};

use crate::limits::{MAX_DESCRIPTION, MAX_EPK};
use std::alloc::AllocError;
use std::marker::Model;

/// What a layout asks for beyond what every slave has, as it was read: no limit has been checked.
#[derive(Debug, PartialEq, Drop)]
pub struct ExtrasPart {
    /// The name of the A2L file, without its path: up to 64 printable ASCII bytes. Without bytes there is none.
    pub a2l: Vec<u8>,
    /// Whether tools get the A2L file from the slave, and may send the commands that came with later versions of the
    /// standard.
    pub uploads_a2l: bool,
    /// Whether a lost sample is told by an event packet.
    pub tells_overload: bool,
}

/// An A2L file: what identifies it, and its text.
#[derive(Drop)]
pub struct A2lFile {
    epk: Vec<u8>,
    text: Vec<u8>,
}

impl Model for A2lFile {
    ghost use Rattle.xcp_memory.specs.Layout.{A2lFileValue, IsA2lFile};

    ghost Value = { A2lFileValue };

    ghost view = { λ f. record { epk = f.epk.items; text = f.text.items } };

    ghost invariant = { λ f. IsA2lFile (record { epk = f.epk.items; text = f.text.items }) };
}

impl A2lFile {
    /// The file with this EPK, of up to 64 bytes, and this text, of up to 1,048,576 bytes. Of more there is none.
    pub fn new(epk: Vec<u8>, text: Vec<u8>) -> Option<A2lFile>
        ensures value { IfSome result (λ f. f ≡ record { epk = epk.items; text = text.items }) }
        ensures none { (result ≡ None) ↔ ((64 < length epk.items) ⊎ (1048576 < length text.items)) }
    {
        if epk.len() > MAX_EPK || text.len() > MAX_DESCRIPTION {
            return None;
        }
        Some(A2lFile { epk, text })
    }

    /// An equal file.
    fn copy(&self) -> Result<A2lFile, AllocError>
        ensures { IfOk result (λ f. f ≡ self.now) }
    {
        let epk = self.epk.clone()?;
        let text = self.text.clone()?;
        Ok(A2lFile { epk, text })
    }

    /// Whether both files are equal.
    fn same(&self, other: &A2lFile) -> bool
        ensures { MatchBool result (self.now ≡ other.now) (self.now ≢ other.now) }
    {
        self.epk == other.epk && self.text == other.text
    }
}

/// An equal file, if there is one.
fn copy_file(file: &Option<A2lFile>) -> Result<Option<A2lFile>, AllocError>
    ensures { IfOk result (λ f. f ≡ file.now) }
{
    match file {
        None => Ok(None),
        Some(file) => Ok(Some(file.copy()?)),
    }
}

/// Whether both are equal files, or both are none.
fn same_file(file: &Option<A2lFile>, other: &Option<A2lFile>) -> bool
    ensures { MatchBool result (file.now ≡ other.now) (file.now ≢ other.now) }
{
    match (file, other) {
        (Some(file), Some(other)) => file.same(other),
        (None, None) => true,
        _ => false,
    }
}

/// What a slave has beyond others: the name of its A2L file and the file itself, for GET_ID; and whether a lost sample is told
/// by EV_DAQ_OVERLOAD.
///
/// ASAM MCD-1 XCP, protocol layer, description of commands: GET_ID; event packets.
#[derive(Drop)]
pub struct Extras {
    a2l: Vec<u8>,
    uploads_a2l: bool,
    tells_overload: bool,
    file: Option<A2lFile>,
}

impl Model for Extras {
    ghost use Rattle.xcp_memory.specs.Layout.{ExtrasValue, IsExtras};

    ghost Value = { ExtrasValue };

    ghost view = { λ e. record { a2l = e.a2l.items; uploads_a2l = e.uploads_a2l; tells_overload = e.tells_overload; file = e.file } };

    ghost invariant = { λ e. IsExtras (record { a2l = e.a2l.items; uploads_a2l = e.uploads_a2l; tells_overload = e.tells_overload; file = e.file }) };
}

impl Extras {
    /// What this part asks for. There is no A2L file yet.
    pub(crate) fn begin(part: ExtrasPart) -> Extras
        requires { is_text_or_none 64 part.a2l.items ≡ true }
        ensures { result ≡ extras_of part }
    {
        Extras {
            a2l: part.a2l,
            uploads_a2l: part.uploads_a2l,
            tells_overload: part.tells_overload,
            file: None,
        }
    }

    /// Equal ones.
    pub(crate) fn copy(&self) -> Result<Extras, AllocError>
        ensures { IfOk result (λ e. e ≡ self.now) }
    {
        let a2l = self.a2l.clone()?;
        let file = copy_file(&self.file)?;
        Ok(Extras {
            a2l,
            uploads_a2l: self.uploads_a2l,
            tells_overload: self.tells_overload,
            file,
        })
    }

    /// Whether both are equal. It takes no memory.
    pub(crate) fn same(&self, other: &Extras) -> bool
        ensures { MatchBool result (self.now ≡ other.now) (self.now ≢ other.now) }
    {
        self.a2l == other.a2l
            && self.uploads_a2l == other.uploads_a2l
            && self.tells_overload == other.tells_overload
            && same_file(&self.file, &other.file)
    }

    /// Makes this the A2L file.
    pub(crate) fn set_a2l_file(&mut self, file: A2lFile)
        ensures { self.new ≡ with_file file self.old }
    {
        self.file = Some(file);
    }

    /// The name of the A2L file, without its path: up to 64 bytes of ASCII, and none where there is none.
    pub fn a2l(&self) -> &[u8]
        ensures value { result.now ≡ self.now.a2l }
        ensures most { length result.now ≤ 64 }
        ensures text { All IsPrintable result.now }
    {
        &self.a2l
    }

    /// Whether tools get the A2L file from the slave, and may send GET_VERSION and WRITE_DAQ_MULTIPLE.
    pub fn uploads_a2l(&self) -> bool
        ensures { result ≡ self.now.uploads_a2l }
    {
        self.uploads_a2l
    }

    /// Whether a lost sample is told by EV_DAQ_OVERLOAD.
    pub fn tells_overload(&self) -> bool
        ensures { result ≡ self.now.tells_overload }
    {
        self.tells_overload
    }

    /// What identifies the A2L file, its EPK: up to 64 bytes, and none where there is no file.
    pub fn epk(&self) -> &[u8]
        ensures value { result.now ≡ epk self.now }
        ensures most { length result.now ≤ 64 }
    {
        match &self.file {
            Some(file) => &file.epk,
            None => &[],
        }
    }

    /// The A2L file's text: up to 1,048,576 bytes, and none where there is no file.
    pub fn description(&self) -> &[u8]
        ensures value { result.now ≡ description self.now }
        ensures most { length result.now ≤ 1048576 }
    {
        match &self.file {
            Some(file) => &file.text,
            None => &[],
        }
    }
}
