//! Tests of readers and writers, by public calls: what one failing call leaves. They need nothing
//! of a run, so they are proved long before it.
#![tactic(auto)]

#[cfg(test)]
mod failing_once;
#[cfg(test)]
mod format_tests;
#[cfg(test)]
mod number_tests;
