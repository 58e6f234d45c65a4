//! Pieces that wait to be sent.

use std::alloc::{AllocError, Global};
use std::collections::VecDeque;

/// Pieces that wait to be sent: those that were put first go first, and none waits twice.
///
/// A node sends what is not acknowledged again in each turn. While the first of such pieces waits, the others would only
/// be the same once more.
#[derive(Drop)]
pub struct Pieces {
    alloc: Global,
    waiting: VecDeque<Vec<u8>>,
    /// How many bytes they have, up to the greatest number.
    bytes: usize,
}

impl Pieces {
    /// No pieces. They take no memory yet.
    pub fn new(alloc: Global) -> Self {
        Pieces {
            alloc,
            waiting: VecDeque::new(alloc),
            bytes: 0,
        }
    }

    /// Whether no piece waits.
    pub fn are_none(&self) -> bool {
        self.waiting.is_empty()
    }

    /// How many bytes wait.
    pub fn bytes(&self) -> usize {
        self.bytes
    }

    /// Whether this piece waits.
    fn have(&self, piece: &[u8]) -> bool {
        self.waiting
            .iter()
            .any(|waiting| waiting.as_slice() == piece)
    }

    /// Puts a piece behind those that wait, where it is none of them. Where there is no memory they stay as they are.
    pub fn put(&mut self, piece: &[u8]) -> Result<(), AllocError> {
        if self.have(piece) {
            return Ok(());
        }
        let mut copy = Vec::new(self.alloc);
        copy.extend_from_slice(piece)?;
        self.waiting.push_back(copy)?;
        self.bytes = self.bytes.saturating_add(piece.len());
        Ok(())
    }

    /// Takes the first of them.
    pub fn next(&mut self) -> Option<Vec<u8>> {
        let piece = self.waiting.pop_front()?;
        self.bytes = self.bytes.saturating_sub(piece.len());
        Some(piece)
    }
}
