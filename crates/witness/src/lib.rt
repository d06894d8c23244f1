// Document 02, request 10, where a plan is checked with no: one edge that shows it, which the whole owns and no block or several do, or which a block
// owns and the whole does not, with the first two blocks that own it. Of all such edges it is the first: x edges before y before z edges, and of one axis
// by its lowest point, z before y before x. The blocks come as the twelve words each of a `bed_box`.
#![tactic(auto)]

mod axes;
mod axis;
mod look;
mod search;
mod words;

pub use axes::plan_witness;
pub use words::NoEdge;
