//! Values put at the end of bytes, each as `model` spells it. Where memory runs out, a part of the value may have been
//! put.
mod bodies;
mod choices;
mod commands;
mod dependencies;
pub(crate) mod documents;
mod drafts;
pub(crate) mod entries;
pub(crate) mod lists;
mod parts;
