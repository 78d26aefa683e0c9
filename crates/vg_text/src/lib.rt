//! Tokens of instruction files and kernels, and places in a text.
//!
//! A text is cut by a [`Lexer`], one token a call. `specs/Cut.antt` says what the tokens of a
//! text are, `specs/Token.antt` how they are found.
#![tactic(auto)]

pub mod byte;
mod front;
pub mod lexer;
pub mod number;
pub mod place;
pub mod sized;
pub mod token;

pub use lexer::Lexer;
pub use number::decimal;
pub use place::Place;
pub use token::{Token, TokenKind};
