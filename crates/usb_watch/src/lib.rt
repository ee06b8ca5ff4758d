//! Readers and writers with a mark that says whether they failed (`Watched`), what is written to
//! them, and lines, in and out. A leaf: nothing of it names a bus. Its words are in
//! `specs/Watch.antt`, `specs/Lines.antt` and `specs/Pipes.antt`.
//!
//! # What is proved
//!
//! Of readers and writers whose bytes are known:
//!
//! - `put_piece` and `put_pieces` write all that they are given, or a prefix of it if the writer
//!   failed. It is marked exactly if that is reported (*PutsText*).
//! - `read_line` reads up to a newline, and never more (*IsNextLine*). Of a line of more than 1,024
//!   bytes it returns a prefix, and `skip_line` reads the rest.
//! - `put_lines` writes the lines and flushes, or writes a prefix of them if the writer failed
//!   (*PutsLines*).
#![tactic(auto)]

mod line;
mod shown;
mod watched;

pub use line::{Line, LineFault, put_lines, read_line, skip_line};
pub use shown::ends_line;
pub use watched::{Watched, WriteFailed, put_piece, put_pieces};
