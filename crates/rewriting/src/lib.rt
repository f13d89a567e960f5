// The published rewriting: the tags of the new darts and the deleted records, then slots for the darts of the added pairs, then the new links.
#![tactic(auto)]

pub mod links;
pub mod room;
pub mod slots;
