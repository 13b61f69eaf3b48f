// Matrices of intervals as they are passed to a product, and the checks on them before anything is computed. Called by the crates `products` and `job`.
#![tactic(auto)]

pub mod check_order;
mod checks;
pub mod methods;
