// A store means a list of claims between a floor and a capacity: append puts a claim at its end, cut keeps its front.
// The table lies in a lent buffer; the overlay puts claims of its own behind those of any source.
// Whoever works over any store is proved once, from the trait alone.
#![tactic(auto)]

mod overlays;
mod rounds;
mod stores;
mod tables;

pub use overlays::Overlay;
pub use rounds::append_read_cut;
pub use stores::Store;
pub use tables::Table;
