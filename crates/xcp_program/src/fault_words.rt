//! The words of help on the faults with which the program ends.

/// A text of help: its front, and behind it each of the named faults with its status, in this order. The words on a fault stand here
/// alone, in the rule of its name; where a subcommand needs more of them, or fewer, they are put together from parts.
///
/// `bin/check-docs` compares the tables of faults in the documents with these words.
macro_rules! help {
    ($front:literal: $($fault:ident),+) => {
        help!([$front] ends $($fault)+)
    };
    ($words:ident) => {
        help!([] $words)
    };
    ([$($words:literal)+]) => {
        concat!($($words),+)
    };
    ([$($words:literal)*] $more:literal $($rest:tt)*) => {
        help!([$($words)* $more] $($rest)*)
    };

    // What stands above the faults.
    ($before:tt wrong_words $($rest:tt)*) => {
        help!($before "Wrong words end the program with status 1, and what is wrong with them on standard error." $($rest)*)
    };
    ($before:tt plain_words $($rest:tt)*) => {
        help!($before " Any other fault
ends it with one line there: its number, and behind a colon words on it, which xcpd --plain SUBCOMMAND .. leaves out." $($rest)*)
    };
    ($before:tt ends $($rest:tt)*) => {
        help!($before "\n\n" wrong_words " Any other fault ends it
with one line there, and this status:" $($rest)*)
    };

    // The faults.
    ($before:tt configuration $($rest:tt)*) => {
        help!($before "
  1  configuration N: the file can't be read (0), is no TOML (1), lacks a key (2), has a value of the wrong
     type (3), out of its range (4), areas that overlap (5), or too many segments, bytes or events (6), or asks for
     an A2L file that can't be made (7)" $($rest)*)
    };
    ($before:tt line $($rest:tt)*) => {
        help!($before "
  2  line N: the line is faulty" $($rest)*)
    };
    ($before:tt streams_of_a_replay $($rest:tt)*) => {
        help!($before "
  3  stream N: reading (1) or writing (2) failed" $($rest)*)
    };
    ($before:tt streams_of_a_server $($rest:tt)*) => {
        help!($before "
  3  stream N: listening or accepting failed (0); of the first faulty connection, reading failed (1), writing
     failed (2), a frame is too long (3) or cut short (4), the reads were spent (6); the journal is full (7)" $($rest)*)
    };
    ($before:tt writing $($rest:tt)*) => {
        help!($before "
  3  stream 2: writing failed" $($rest)*)
    };
    ($before:tt memory $($rest:tt)*) => {
        help!($before "
  4  memory: an allocation failed" $($rest)*)
    };
    ($before:tt memory_or_threads $($rest:tt)*) => {
        help!($before memory ", or a thread couldn't be started" $($rest)*)
    };
    ($before:tt mismatched_chapter $($rest:tt)*) => {
        help!($before "
  5  mismatch chapter K: chapter K of the journal doesn't follow the one before" $($rest)*)
    };
    ($before:tt mismatched_caller $($rest:tt)*) => {
        help!($before "
  5  mismatch caller C at I: what caller C was answered differs from the journal, first at its call I" $($rest)*)
    };
    ($before:tt mismatched_call $($rest:tt)*) => {
        help!($before "
  5  mismatch call I: call I is the first, counted from 0, that has another answer than the slave's" $($rest)*)
    };
    ($before:tt written_journal $($rest:tt)*) => {
        help!($before "
  6  journal N: the journal's file can't be made, or is there already (1), or not all calls could be written (2)" $($rest)*)
    };
    ($before:tt audited_journal $($rest:tt)*) => {
        help!($before "
  6  journal N: the journal's file can't be opened (0) or read (1), ends inside a chapter or its end mark (3), has a part
     that isn't as it was written (4), is of another layout (5), is no such file, is of another version or too long (6)" $($rest)*)
    };
    ($before:tt unfit_pages $($rest:tt)*) => {
        help!($before "the file of the stored pages can't be read, is of another layout, cut short or altered" $($rest)*)
    };
    ($before:tt read_flash $($rest:tt)*) => {
        help!($before "
  6  flash 1: " unfit_pages $($rest)*)
    };
    ($before:tt kept_flash $($rest:tt)*) => {
        help!($before "
  6  flash N: " unfit_pages " (1), not all could
     be written (2), or another program keeps it (3)" $($rest)*)
    };
}

pub(crate) use help;
