// The link finder: Aho and Corasick's automaton in a table of the caller's.
#![tactic(auto)]

mod admit;
mod as_finder;
mod back;
mod building;
mod children;
mod compare;
mod enter;
mod expect;
mod follow;
mod link;
mod mount;
mod node;
mod root;
mod shape;
mod source;

pub use self::link::LinkFinder;
pub use building::build;
pub use node::Node;
