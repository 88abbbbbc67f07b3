//! Answers that leave a part out.

/// What an answer leaves out of what came: where `..` stands at its end the rest of a line, and where a line is `..` lines. None where
/// something else came.
pub fn left_out<'a>(stands: &str, came: &'a str) -> Option<&'a str> {
    if let Some((front, back)) = stands.split_once("\n..\n") {
        let behind = came.strip_prefix(front)?.strip_prefix("\n")?;
        let lines = behind.strip_suffix(back)?;
        return if lines.ends_with("\n") {
            Some(lines)
        } else {
            None
        };
    }
    let rest = came.strip_prefix(stands.strip_suffix("..")?)?;
    if rest.is_empty() || rest.contains('\n') {
        None
    } else {
        Some(rest)
    }
}
