//! A unit of a plan solved for a shot (Wu and Zhong 2023).

#![tactic(auto)]

pub mod unit;

pub use unit::{solve_unit, solve_unit_from};
