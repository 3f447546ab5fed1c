// The tokens of the Smithy IDL 2.0, and what a token's bytes mean.
#![tactic(auto)]

mod byte;
mod docs;
mod escape;
mod judge;
pub mod laws;
mod lex;
mod lines;
mod part;
mod quoted;
mod runs;
mod space;
mod token;
mod value;

pub use docs::documentation;
pub use lex::tokens;
pub use token::{LexRefusal, Token, TokenKind};
pub use value::{block_value, number_value, string_value};
