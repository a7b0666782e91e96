//! Bytes that cases share, by their names.

use anyhow::{Context, Result};
use std::alloc::Global;

#[derive(Drop)]
struct Piece {
    name: String,
    bytes: Vec<u8>,
}

/// Bytes by their names.
#[derive(Drop)]
pub struct Pieces {
    pieces: Vec<Piece>,
}

impl Pieces {
    pub fn new(alloc: Global) -> Pieces {
        Pieces {
            pieces: Vec::new(alloc),
        }
    }

    /// Adds the piece of a line: its name, and words of which each is a piece or hex digits.
    pub fn add(&mut self, alloc: Global, line: &str) -> Result<()> {
        let (name, words) = line.split_once(' ').context("a piece without bytes")?;
        let mut bytes = Vec::new(alloc);
        for word in words.split(' ') {
            self.append(alloc, word, &mut bytes)?;
        }
        let name = String::from_str(alloc, name)?;
        self.pieces.push(Piece { name, bytes })?;
        Ok(())
    }

    fn named(&self, name: &str) -> Option<&[u8]> {
        for piece in &self.pieces {
            if piece.name.as_str() == name {
                return Some(piece.bytes.as_slice());
            }
        }
        None
    }

    /// Appends the bytes of a word: those of the piece with this name, or of its hex digits.
    pub fn append(&self, alloc: Global, word: &str, bytes: &mut Vec<u8>) -> Result<()> {
        if let Some(piece) = self.named(word) {
            bytes.extend_from_slice(piece)?;
        } else {
            bytes.extend_from_slice(&hex::decode(alloc, word)?)?;
        }
        Ok(())
    }
}
