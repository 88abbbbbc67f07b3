//! Scripts: lines of text that ask a slave, and the lines of its answers.
//!
//! [`replay_on`] answers a script line by line through a desk, over any reader and writer.
//! [`parse_line`] tells what a line says, [`push_text`] appends the line of an answer.
//!
//! `specs/Lines.antt` has the lines of a text, `specs/ScriptLine.antt` what a line says,
//! `specs/AnswerText.antt` the text of the answers, `specs/Replay.antt` what a replay promises.
#![tactic(auto)]

mod answer_text;
mod digits;
mod fault;
mod law;
mod line;
mod liner;
mod parsing;
mod plain;
mod replaying;
mod script;
mod slot;

pub use answer_text::push_text;
pub use fault::ReplayError;
pub use law::each_text_has_its_lines;
pub use line::Line;
pub use parsing::{LINE_BYTES, parse_line};
pub use plain::plain_lines;
pub use replaying::replay_on;
