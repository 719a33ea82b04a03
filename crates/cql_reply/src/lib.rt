//! The line of an answer, written as there is room for it: what is kept of it is the answer and a
//! place in its line, and no text of the line. Lists of other things are written so, too.
#![tactic(auto)]

mod block_place;
mod byte_room;
mod line_place;
mod list_place;
mod piece_place;
mod row_place;
mod text_place;
mod value_place;
mod weight;

pub use byte_room::{ByteRoom, PIECE};
pub use line_place::LinePlace;
pub use list_place::ListPlace;
pub use piece_place::{Piece, PiecesPlace};
pub use text_place::TextPlace;
pub use value_place::{ValuePlace, put_escaped};
pub use weight::weight_of;
