// A bed closed by a border of far points: sludge on the floor of a tank and against its walls has an open skin, and a border of values above zero closes
// it. A grid of X, Y, Z points and a wall's value make one of X + 3, Y + 3, Z + 3, in one call or a layer at a time.
#![tactic(auto)]

mod layer;
mod refusal;
mod runs;
mod wall;
mod whole;

pub use layer::close_layer;
pub use refusal::Refusal;
pub use wall::{deepest, wall_for};
pub use whole::close;
