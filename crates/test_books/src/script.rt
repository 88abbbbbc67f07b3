//! Rows of kinds `lines` and `script`: a script of `xcpd replay`, and its answers.
//!
//! A question is a line of the script, which may have escapes; its answer is the line that the replay writes for it, or the line of
//! the fault that ends it. An answer alone is that of a layout that is refused. `image` is no line of the script: its answer is the
//! ECU image behind the lines above it.
use crate::output::text_of;
use crate::pieces::Pieces;
use std::alloc::Global;
use std::fmt::Write;
use test_playing::{Row, Section, Trouble, unescaped};
use xcp_describe::a2l_of;
use xcp_framing::Watched;
use xcp_memory::Layout;
use xcp_program::{layout_stored, replay};
use xcp_script::{Line, parse_line};
use xcp_slave::Slave;

/// The most reads of one replay.
const TURNS: u32 = 100_000;

/// Whether a row is a line of the script.
fn is_line(row: &Row<'_>) -> bool {
    row.question != "image" && !(row.question.is_empty() && row.answer.is_some())
}

/// The script that the rows are. Its last line ends with it.
pub fn script_of(alloc: Global, rows: &[Row<'_>]) -> Result<Vec<u8>, Trouble> {
    let mut script = Vec::new(alloc);
    let mut is_first = true;
    for row in rows {
        if is_line(row) {
            if !is_first {
                script.push(b'\n')?;
            }
            let line = unescaped(alloc, row.line, row.question)?;
            script.extend_from_slice(line.as_slice())?;
            is_first = false;
        }
    }
    Ok(script)
}

/// What a replay of a script writes, and the line of the fault that ends it; and where it counts other requests than lines that it
/// writes, how many.
pub fn replayed(
    alloc: Global,
    layout: &str,
    pages: Option<&[u8]>,
    script: Pieces<'_>,
) -> Result<String, Trouble> {
    let mut reader = Watched::new(script);
    let mut writer = Watched::new(Vec::new(alloc));
    let ended = match a2l_of(alloc, layout, &[]) {
        Ok(a2l) => replay(alloc, layout, a2l, pages, &mut reader, &mut writer, TURNS),
        Err(fault) => Err(fault),
    };
    let mut text = text_of(alloc, writer.into_inner().as_slice(), ended)?;
    match ended {
        Ok(requests) if requests != text.as_str().lines().count() as u64 => {
            write!(text, "\n{requests} requests")?;
        }
        _ => {}
    }
    Ok(text)
}

/// The layout with which the slave of a part begins.
pub fn begun(alloc: Global, section: &Section<'_>) -> Result<Layout, Trouble> {
    let text = section.layout()?;
    let a2l = a2l_of(alloc, text, &[])?;
    Ok(layout_stored(alloc, text, a2l, section.pages)?)
}

/// The ECU image of a slave in hex. Its last zeros are left out, but for those that so many digits would write.
fn image_of(alloc: Global, slave: &Slave, digits: usize) -> Result<String, Trouble> {
    let mut image = vec![in alloc; 0; slave.layout().image_size()]?;
    slave.image(&mut image);
    let all = hex::encode_upper(alloc, image.as_slice())?;
    let told = all.as_str().trim_end_matches('0').len().max(digits);
    let told = told.saturating_add(told % 2);
    let image = all.as_str().get(..told).unwrap_or(all.as_str());
    Ok(String::from_str(alloc, image)?)
}

/// Asks a slave what a line says, and tells whether it says something.
fn submit(slave: &mut Slave, line: &[u8]) -> bool {
    match parse_line(slave.max_cto(), line) {
        Line::Skip => true,
        Line::Ask(request) => {
            let _ = slave.submit(&request);
            true
        }
        Line::Faulty => false,
    }
}

/// A slave that was just made.
fn slave_of(alloc: Global, section: &Section<'_>) -> Result<Slave, Trouble> {
    let layout = begun(alloc, section)?;
    Ok(Slave::new(alloc, layout)?)
}

/// The ECU image behind the rows above a row of a script: a slave that was just made is asked what they say, up to the first that is
/// faulty.
pub fn image_behind(
    alloc: Global,
    section: &Section<'_>,
    above: &[Row<'_>],
    row: &Row<'_>,
) -> Result<String, Trouble> {
    let mut slave = slave_of(alloc, section)?;
    for row in above {
        if is_line(row) {
            let line = unescaped(alloc, row.line, row.question)?;
            if !submit(&mut slave, line.as_slice()) {
                break;
            }
        }
    }
    let digits = match &row.answer {
        Some(stands) => stands.len(),
        None => 0,
    };
    image_of(alloc, &slave, digits)
}
