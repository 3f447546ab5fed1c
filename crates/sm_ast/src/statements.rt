// The statements that a tree says, part by part. What a checked tree can't lack is read as empty where it is missing, so that
// out of memory is the only refusal here.
mod member;
mod node;
mod property;
mod reference;
mod shape;
mod top;
mod traits;

pub(crate) use top::statements_of;
