//! Where the reading of arguments stands.

/// Where the reading of arguments stands.
#[derive(Clone, Copy)]
pub enum Place {
    /// Between arguments.
    Between,
    /// In one.
    InPlain,
    /// In one, within quotes.
    InQuotes,
    /// Behind a quote there, which ends the argument unless another quote follows.
    BehindQuote,
}
