// A sheet's actors, objects, order and exclusions, and the reader that builds them.
#![tactic(auto)]

pub mod counts;
pub mod exclusions;
pub mod faults;
pub mod graph_calls;
pub mod joining;
pub mod lean_view;
pub mod links;
pub mod object_set;
pub mod objects;
pub mod order;
pub mod questions;
pub mod read_sheet;
pub mod reading;
pub mod row;
pub mod sheet_graph;
pub mod stage;
pub mod taking;
