//! The lines of a table's picture, and the columns of a row that is given in them (Lesk, "Tbl - A
//! Program to Format Tables").
#![tactic(auto)]

pub mod fronts;
pub mod laws;
pub mod plain_tables;
pub mod row_columns;
pub mod row_lent;
pub mod worked_bars;
pub mod worked_boxes;
pub mod worked_rule_keys;
pub mod worked_rules;
pub mod worked_running;
pub mod worked_spans;
pub mod worked_tall;
