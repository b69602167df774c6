//! Why something isn't written.

/// Why something isn't written.
#[derive(Clone, Copy)]
pub enum PageFault {
    /// The limit on the output would be passed. Nothing changed, and nothing was written.
    Output,
    /// The sink failed. A beginning of the text was written.
    Sink,
}
