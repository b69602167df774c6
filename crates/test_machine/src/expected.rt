//! What a run of the program must give.

use super::Paper;
use std::process::ExitCode;

/// What a run must write, and the status with which it must end.
#[derive(Clone, Copy)]
pub struct Expected<'a> {
    pub status: u8,
    pub out: &'a [u8],
    pub err: &'a [u8],
}

impl Expected<'_> {
    /// What of a run's answer isn't this: what it wrote on these two, and how it ended.
    pub fn difference(
        &self,
        stdout: &Paper,
        stderr: &Paper,
        exit: ExitCode,
    ) -> Option<&'static str> {
        if stdout.kept.as_slice() != self.out {
            Some("output")
        } else if stderr.kept.as_slice() != self.err {
            Some("messages")
        } else if exit != ExitCode::from(self.status) {
            Some("status")
        } else {
            None
        }
    }
}
