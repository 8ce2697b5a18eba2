//! How a key comes to its place by the places' names.

pub(crate) mod names;
