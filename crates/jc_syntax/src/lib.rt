//! Tokens and lexical faults of texts, and the trees of the language, which the parser and the printer share.
#![tactic(auto)]

mod content;
mod extent;
mod fault;
pub mod laws;
mod lexer;
mod number;
mod piece;
mod token;
mod tree;

pub use content::{slice_of, string_of};
pub use fault::LexFault;
pub use lexer::{lex, token_end};
pub use token::{Token, TokenKind};
pub use tree::{Cmd, Expr, Named, NamedEvent, copy_script};
