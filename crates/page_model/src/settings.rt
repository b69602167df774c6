//! The parameters of an environment (manual, sections 4, 5, 6 and 14).

ghost use Rattle.std.specs.Prelude.{◌≡◌};
ghost use Rattle.page_model.specs.Settings.{initial_settings, settings_with, fills};

/// How lines are adjusted (manual, section 4.1, the request `ad`).
#[derive(Clone, Copy)]
pub enum AdjustMode {
    /// The left edge is even: nothing is moved.
    Left,
    /// The right edge is even: a line starts later.
    Right,
    /// A line is centred between the edges.
    Centre,
    /// Both edges are even: gaps are widened.
    Both,
}

/// A change of one of an environment's parameters. Lengths are in columns.
#[derive(Clone, Copy)]
pub enum Param {
    /// Filling goes on (`fi`) or off (`nf`).
    Filling(bool),
    /// Adjusting goes on (`ad`) or off (`na`).
    Adjusting(bool),
    /// The way in which lines are adjusted.
    Mode(AdjustMode),
    /// The length of a line with its indent.
    LineLength(u32),
    /// The indent of the lines that begin from now on.
    Indent(u32),
    /// The indent of the next line that a word begins, and of no other (`ti`).
    TemporaryIndent(u32),
    /// How many text lines of the input are to be centred (`ce`).
    Centring(u32),
    /// The line spacing (`ls`): so many lines less one are left blank behind each line.
    Spacing(u32),
    /// The title length (`lt`).
    TitleLength(u32),
    /// No tab stops are left.
    NoStops,
    /// One more tab stop, at this column. Of more than 32 the first ones are kept.
    Stop(u32),
    /// One more tab stop, at this column, at which text ends. Of more than 32 the first ones are
    /// kept.
    RightStop(u32),
    /// One more tab stop, at this column, at which text has its middle. Of more than 32 the first
    /// ones are kept.
    CentredStop(u32),
}

/// What is in force in an environment. Lengths are in columns.
#[derive(Clone, Copy)]
pub struct Settings {
    /// Whether words are filled into lines.
    pub filling: bool,
    /// Whether filled lines are adjusted.
    pub adjusting: bool,
    /// How they are adjusted.
    pub mode: AdjustMode,
    /// The length of a line with its indent.
    pub line_length: u32,
    /// The line length before the last one that was set.
    pub previous_line_length: u32,
    /// The indent.
    pub indent: u32,
    /// The indent before the last one that was set.
    pub previous_indent: u32,
    /// How many text lines of the input are still to be centred.
    pub centring: u32,
    /// The line spacing.
    pub spacing: u32,
    /// The line spacing before the last one that was set.
    pub previous_spacing: u32,
    /// The title length.
    pub title_length: u32,
    /// The title length before the last one that was set.
    pub previous_title_length: u32,
}

impl Settings {
    /// What is in force at first: filling, both edges even, a line and a title of 65 columns (6.5
    /// inches), no indent.
    pub fn initial() -> Settings
        ensures { result ≡ initial_settings }
    {
        Settings {
            filling: true,
            adjusting: true,
            mode: AdjustMode::Both,
            line_length: 65,
            previous_line_length: 65,
            indent: 0,
            previous_indent: 0,
            centring: 0,
            spacing: 1,
            previous_spacing: 1,
            title_length: 65,
            previous_title_length: 65,
        }
    }

    /// What is in force after a change.
    pub fn with(self, param: Param) -> Settings
        ensures { result ≡ settings_with param self }
    {
        let mut changed = self;
        match param {
            Param::Filling(on) => changed.filling = on,
            Param::Adjusting(on) => changed.adjusting = on,
            Param::Mode(mode) => changed.mode = mode,
            Param::LineLength(columns) => {
                changed.previous_line_length = self.line_length;
                changed.line_length = columns;
            }
            Param::Indent(columns) => {
                changed.previous_indent = self.indent;
                changed.indent = columns;
            }
            Param::Centring(lines) => changed.centring = lines,
            Param::Spacing(lines) => {
                changed.previous_spacing = self.spacing;
                changed.spacing = lines;
            }
            Param::TitleLength(columns) => {
                changed.previous_title_length = self.title_length;
                changed.title_length = columns;
            }
            Param::TemporaryIndent(_)
            | Param::NoStops
            | Param::Stop(_)
            | Param::RightStop(_)
            | Param::CentredStop(_) => {}
        }
        changed
    }

    /// Whether words are measured and lines adjusted: in filling, unless lines are centred.
    pub fn fills(self) -> bool
        ensures { result ≡ fills self }
    {
        self.filling && self.centring == 0
    }
}
