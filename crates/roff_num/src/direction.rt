//! Which way a register is stepped.

/// Which way a register is stepped: `\n+x` or `\n-x`.
#[derive(Clone, Copy)]
pub enum Direction {
    /// The increment is added.
    Up,
    /// The increment is taken away.
    Down,
}
