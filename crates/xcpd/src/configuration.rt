//! The configuration file, and the files that its segments name.
ghost use Rattle.std.specs.Prelude.{◌≡◌, ◌⊎◌, [], None, IfOk, string_bytes};
ghost use Rattle.xcpd.specs.NamedFiles.{AreNamed};

use std::fs::File;
use xcp_config::{DataFile, data_files};
use xcp_program::{Fault, beside, read_data, read_text};

/// The text of a configuration file, and the files that its segments name for their bytes, by the segments' numbers.
#[derive(Drop)]
pub struct Configuration {
    pub text: String,
    pub files: Vec<DataFile>,
}

impl Configuration {
    /// Reads the file of this path, and those that its segments name, which lie in its folder.
    pub fn open(rt: &HostRuntime, path: &str) -> Result<Configuration, Fault>
        ensures { IfOk result (λ c. AreNamed (string_bytes c.text) c.files.items) }
    {
        let text = text_of(rt, path)?;
        let files = files_of(rt, path, text.as_str())?;
        Ok(Configuration { text, files })
    }
}

/// The text of the configuration file.
pub fn text_of(rt: &HostRuntime, path: &str) -> Result<String, Fault> {
    let Ok(file) = File::open(rt, path) else {
        return Err(Fault::Configuration(0));
    };
    read_text(rt.alloc(), file)
}

/// The files that the segments of this text name, which lie in the folder of its file: no file where one can't be opened or read.
fn files_of(rt: &HostRuntime, path: &str, text: &str) -> Result<Vec<DataFile>, Fault>
    ensures { IfOk result (λ files. AreNamed text.now files.items) }
{
    let Ok(names) = data_files(rt.alloc(), text) else {
        return Err(Fault::Memory);
    };
    let mut files = Vec::new(rt.alloc());
    for name in names {
        let file = file_of(rt, path, name)?;
        let Ok(()) = files.push(file) else {
            return Err(Fault::Memory);
        };
    }
    Ok(files)
}

/// The same of a file of these bytes: none where they are no text.
pub fn files_by(rt: &HostRuntime, path: &str, bytes: &[u8]) -> Result<Vec<DataFile>, Fault>
    ensures { IfOk result (λ files. AreNamed bytes.now files.items ⊎ (files.items ≡ [])) }
{
    match str::from_utf8(bytes) {
        Ok(text) => files_of(rt, path, text),
        Err(_) => Ok(Vec::new(rt.alloc())),
    }
}

/// The file that a segment names, if it names one.
fn file_of(rt: &HostRuntime, path: &str, name: Option<String>) -> Result<DataFile, Fault>
    ensures { IfOk result (λ file. name ≡ None → file ≡ None) }
{
    match name {
        Some(name) => file_at(rt, path, name.as_str()),
        None => Ok(DataFile::none()),
    }
}

/// The file of this name in the folder of the configuration file.
fn file_at(rt: &HostRuntime, path: &str, name: &str) -> Result<DataFile, Fault> {
    let Ok(place) = beside(rt.alloc(), path, name) else {
        return Err(Fault::Memory);
    };
    match File::open(rt, place.as_str()) {
        Ok(file) => read_data(rt.alloc(), file),
        Err(_) => Ok(DataFile::none()),
    }
}
