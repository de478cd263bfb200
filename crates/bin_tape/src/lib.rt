//! Tapes in the format of the Binary Loader: read from bytes or from a reader, and written.
//!
//! A tape is a list of frames, one byte each. [`read_tape`] and [`read_from`] give the image that a
//! tape carries, or the fault that refuses it; [`write_tape`] writes the tape of an image. Nothing
//! here takes memory.
#![tactic(auto)]

pub mod fault;
pub mod image;
pub mod laws;
pub mod read;
mod reader;
pub mod word;
pub mod write;

pub use fault::{TapeFault, WriteTapeFault};
pub use image::Image;
pub use read::{read_from, read_tape};
pub use streams::{ByteSink, ByteSource, Failed, put};
pub use word::TapeWord;
pub use write::write_tape;
