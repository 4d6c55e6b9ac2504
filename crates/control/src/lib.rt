// Control lines: how a line's setting is read, and which select algorithm is preferred.
#![tactic(auto)]

pub mod cs_config; // the setting of a line under a chip's select settings
pub mod alg_preference; // the order among the select algorithms
