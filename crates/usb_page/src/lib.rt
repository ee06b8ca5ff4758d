//! The text of a run as one self-contained page of HTML, drawn by its script.
//!
//! # What is proved
//!
//! - `put_page` writes the page of a text, or a prefix of it if the writer failed (*page_text*).
//! - A browser shows of the name and the text what they are, and reads no byte of them as markup
//!   (`escaping_laws`).
//!
//! *Only tested*: what the script draws (`tools/page_try`).
#![tactic(auto)]

mod escape;
mod markup;
mod paging;
mod script;

pub use escape::{escaped, escaping_laws};
pub use paging::put_page;
