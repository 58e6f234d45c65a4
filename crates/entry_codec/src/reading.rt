//! Values read from a place of bytes. Each call answers the value and the place behind it, or the first fault.
mod bodies;
mod commands;
mod dependencies;
mod documents;
mod drafts;
pub(crate) mod entries;
mod events;
mod fields;
mod lists;
mod parts;
