//! The reader of a dump that comes in pieces.

pub(crate) mod partial_body;
pub(crate) mod partial_header;
pub(crate) mod partial_line;
pub(crate) mod reader;
