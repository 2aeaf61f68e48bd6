//! From bytes to a block, and from a block to what it says.

pub(crate) mod block;
pub(crate) mod field;
pub(crate) mod format;
pub(crate) mod headers;
pub(crate) mod length;
pub(crate) mod line;
pub(crate) mod mi_text;
pub(crate) mod node;
pub(crate) mod node_action;
pub(crate) mod section;
