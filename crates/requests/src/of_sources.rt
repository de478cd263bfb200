//! Sources and their declarations: how they are read and assembled, and what is reported about them. This is tested,
//! not proved, except that the first line of a text is proved to stay as it is.

pub(crate) mod assembled;
mod ignored;
mod numbering;
mod part_lines;
pub(crate) mod proposed;
pub(crate) mod reading;
pub(crate) mod source_lines;
pub(crate) mod source_messages;
