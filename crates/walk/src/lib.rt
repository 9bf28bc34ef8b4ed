//! The walk down the memberships, one text for every kind of weight that can be added and stepped, and the weights of the product:
//! rows of counts, and a distance or none.
#![tactic(auto)]

pub mod least_weight;
pub mod meaning;
pub mod row_weight;
pub mod rows_weight;
#[cfg(test)]
mod tests;
pub mod walking;
pub mod weight;
