//! Carries out the requests that work on tapes, sources, declarations and certificates in files: which files are
//! opened, and in what order. This is tested, not proved.

pub mod certificates;
pub mod session_files;
pub mod sources;
pub mod tapes;
