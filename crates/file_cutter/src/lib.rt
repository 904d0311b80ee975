//! The pieces of a file: what a source gives is read piece by piece, each as a message behind a byte 0.
//! `Pieces` reads a whole file so, counts its bytes, and stops where a read fails or where the file is
//! too long; `Cut` says what each call came to. A piece is the same in every kind of file that goes over
//! a relay. How a file begins and how it ends is not known here, nor where its messages go.
#![tactic(auto)]

mod fill;
mod pieces;

pub use pieces::{Cut, Pieces};
