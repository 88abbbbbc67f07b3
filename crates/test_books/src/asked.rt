//! What the program is asked for, as text.
use std::alloc::{AllocError, Global};
use std::fmt::Write;
use xcp_program::Options;

/// A name as a word: `''` for one without a character.
fn word(name: &str) -> &str {
    if name.is_empty() { "''" } else { name }
}

/// What a server is asked for, but for the files that are named besides.
fn server(alloc: Global, options: &Options) -> Result<String, AllocError> {
    match options {
        Options::Serve {
            config,
            host,
            port,
            tools,
            tasks,
            cycles,
            chapter,
            period,
            ..
        } => {
            let (config, host) = (word(config.as_str()), word(host.as_str()));
            format!(in alloc; "{config} {host} {port} {tools} {tasks} {cycles} {chapter} {period}")
        }
        Options::Stay {
            config,
            host,
            port,
            tools,
            tasks,
            period,
            patience,
            queue,
            idle,
            cut_every,
            ..
        } => {
            let (config, host) = (word(config.as_str()), word(host.as_str()));
            format!(in alloc;
                "stay {config} {host} {port} {tools} {tasks} {period} {patience} {queue} {idle} {cut_every}"
            )
        }
        _ => Ok(String::new(alloc)),
    }
}

/// What is asked for, but for the files that are named besides.
fn front(alloc: Global, options: &Options) -> Result<String, AllocError> {
    match options {
        Options::Replay { config, .. } => String::from_str(alloc, word(config.as_str())),
        Options::Serve { .. } | Options::Stay { .. } => server(alloc, options),
        Options::Describe {
            config,
            host,
            port,
            check,
            ..
        } => {
            let verb = if *check { "check" } else { "describe" };
            let (config, host) = (word(config.as_str()), word(host.as_str()));
            format!(in alloc; "{verb} {config} {host} {port}")
        }
        Options::Audit {
            config,
            file,
            lines,
            ..
        } => {
            let (config, file) = (word(config.as_str()), word(file.as_str()));
            format!(in alloc; "{config} {file} {lines}")
        }
    }
}

/// Adds the name of a file behind a text, if it is named.
fn push_file(text: &mut String, before: &str, file: &Option<String>) -> Result<(), AllocError> {
    if let Some(name) = file {
        text.push_str(before)?;
        text.push_str(word(name.as_str()))?;
    }
    Ok(())
}

/// Whether a server is asked for that stays and doesn't read standard input.
fn is_unread(options: &Options) -> bool {
    matches!(options, Options::Stay { no_stdin: true, .. })
}

/// Whether tools reach the slave over UDP.
fn is_over_udp(options: &Options) -> bool {
    match options {
        Options::Stay { udp, .. } | Options::Describe { udp, .. } => *udp,
        _ => false,
    }
}

/// What is asked for, with a blank between its parts, and a line feed. Of a replay it is its file; of a server its file, host, port,
/// tools, tasks, cycles, chapter and period; of one that stays `stay` before its file, host, port, tools, tasks, period, patience, queue,
/// idle and cut_every, and `unread` if standard input isn't read; of either then the file of its journal, if it is named, and `paced`, if
/// it is; of a description `describe`, or `check` if the file is
/// only checked, before its file, host and port; of an audit its file, its journal, and whether lines are wanted. Behind all of these
/// stand `flash` and the file of the stored pages, if it is named, and `udp`, if tools reach the slave over UDP.
pub fn shown(alloc: Global, options: &Options) -> Result<String, AllocError> {
    let mut text = front(alloc, options)?;
    match options {
        Options::Serve {
            journal,
            pace,
            flash,
            ..
        }
        | Options::Stay {
            journal,
            pace,
            flash,
            ..
        } => {
            text.push_str(if is_unread(options) { " unread" } else { "" })?;
            push_file(&mut text, " ", journal)?;
            text.push_str(if *pace { " paced" } else { "" })?;
            push_file(&mut text, " flash ", flash)?;
        }
        Options::Replay { flash, .. } | Options::Audit { flash, .. } => {
            push_file(&mut text, " flash ", flash)?;
        }
        Options::Describe { .. } => {}
    }
    text.push_str(if is_over_udp(options) { " udp" } else { "" })?;
    text.push('\n')?;
    Ok(text)
}
