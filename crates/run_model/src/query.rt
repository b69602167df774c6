//! What read-only registers ask for (manual, section 8).

/// What a read-only register asks for.
#[derive(Clone, Copy)]
pub enum Query {
    /// How many newlines were taken of the source.
    Newlines,
    /// The indent.
    Indent,
    /// The line length.
    LineLength,
    /// The width of the last finished line.
    LastWidth,
    /// Whether words are filled into lines: 1 or 0.
    Filling,
    /// The distance of two lines.
    LineSpacing,
    /// The width of a column.
    ColumnWidth,
    /// How many arguments the innermost body has that a line called.
    Arguments,
    /// The place on the page.
    PagePlace,
    /// The page length.
    PageLength,
    /// The page offset.
    PageOffset,
    /// How far the next trap or the page's end is.
    WayToTrap,
    /// The place where text goes: in the innermost open diversion, or on the page.
    TextPlace,
    /// The height of the diversion that ended last.
    DiversionHeight,
    /// Its width.
    DiversionWidth,
    /// The name of the innermost open diversion; as a number it is 0.
    DiversionName,
}
