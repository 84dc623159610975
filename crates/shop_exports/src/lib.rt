// What C may call: the engines over bytes, from texts to texts in the caller's room.
#![tactic(auto)]

mod exports;
mod outcomes;
mod requests;

pub use exports::{shop_exports_check, shop_exports_list, shop_exports_solve};
pub use outcomes::{BAD_ARGUMENT, CallResult, DONE, TOO_SMALL};
pub use requests::Options;
