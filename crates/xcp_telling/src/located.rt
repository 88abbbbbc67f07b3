//! The lines of a check, each with the line of its table and the name of its entry.
ghost use Rattle.std.specs.Prelude.{◌≡◌, ◌++◌, ℕ, List, codes, IfOk, IfSome, OnOk, string_bytes};
ghost use Rattle.xcp_telling.specs.Locating.{AreLocated, IsLocated, ended_lines};

use crate::entries::located;
use std::alloc::{AllocError, Global};

/// The bytes of a check's lines, located in this layout file, where they are text.
pub(crate) fn located_bytes(
    alloc: Global,
    lines: Vec<u8>,
    config: &str,
) -> Result<Vec<u8>, AllocError>
    ensures { IfOk result (λ told. AreLocated lines.items told.items) }
{
    match String::from_utf8(lines) {
        Ok(text) => Ok(located_lines(alloc, text.as_str(), config)?.into_bytes()),
        Err(error) => Ok(error.into_bytes()),
    }
}

/// These lines, located in this layout file. What stands behind the last line feed stays as it is.
fn located_lines(alloc: Global, lines: &str, config: &str) -> Result<String, AllocError>
    ensures { IfOk result (λ told. AreLocated lines.now (string_bytes told)) }
{
    let mut told = String::new(alloc);
    let mut rest = lines;
    while let Some((line, more)) = rest.split_once('\n') {
        put_line(alloc, line, config, &mut told)?;
        rest = more;
    }
    told.push_str(rest)?;
    Ok(told)
}

/// Appends a line, located.
fn put_line(alloc: Global, line: &str, config: &str, told: &mut String) -> Result<(), AllocError>
    ensures { OnOk result ((words : List ℕ) × IsLocated line.now words × (string_bytes told.new ≡ string_bytes told.old ++ ended_lines words)) }
{
    let words = located_line(alloc, line, config)?;
    told.push_str(words.as_str())?;
    told.push('\n')
}

/// A line whose words are located: those behind its head, if it has one.
fn located_line(alloc: Global, line: &str, config: &str) -> Result<String, AllocError>
    ensures { IfOk result (λ told. IsLocated line.now (string_bytes told)) }
{
    match headed(line) {
        Some((head, words)) => {
            let words = located(alloc, words, config)?;
            put_head(alloc, head, words.as_str())
        }
        None => located(alloc, line, config),
    }
}

/// The head of a line and its words, if it has a head: the number of a fault, or that a key is unread.
fn headed(line: &str) -> Option<(&str, &str)>
    ensures { IfSome result (λ parts. line.now ≡ parts.0.now ++ (codes ": " ++ parts.1.now)) }
{
    let (head, words) = line.split_once(": ")?;
    if head == "unread" || head.starts_with("configuration ") {
        Some((head, words))
    } else {
        None
    }
}

/// Words behind their head.
fn put_head(alloc: Global, head: &str, words: &str) -> Result<String, AllocError>
    ensures { IfOk result (λ told. string_bytes told ≡ head.now ++ (codes ": " ++ words.now)) }
{
    format!(in alloc; "{head}: {words}")
}
