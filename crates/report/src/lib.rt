// The bench program's text (document 01, "The bench program"), handed out piece by piece.
#![tactic(auto)]

mod opening;
mod piece;
mod stage;
mod turn;

pub use opening::open;
pub use piece::Piece;
pub use stage::{Report, Stage};
pub use turn::{Turn, next};
