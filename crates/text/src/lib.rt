//! Sheets as text: lines, words and tables, read with their positions.

#![tactic(auto)]

mod content;
mod cursor;
mod due;
mod heading;
pub mod laws;
pub mod line;
mod names;
mod opening;
pub mod read;
mod rows;
pub mod sheet;
mod source;
mod split;
mod table;
mod values;
mod words;
