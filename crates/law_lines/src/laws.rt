//! Facts about the definitions alone, as contracts of functions that do nothing.

ghost use Rattle.std.specs.Prelude.{◌≡◌, ℕ, ◌+◌, ◌-◌, ◌/◌, ◌<◌, max, List, [], ◌∷◌, ◌++◌, length};
ghost use Rattle.std.specs.Prelude.{map, All, Some, None, option_map, IfSome, true, false, codes};
ghost use Rattle.law_lines.specs.LawWords.{Settings, Right, Centre, Filling, Adjusting, Mode};
ghost use Rattle.law_lines.specs.LawWords.{LineLength, Indent, TemporaryIndent, Centring, Spacing};
ghost use Rattle.law_lines.specs.LawWords.{NoStops, Stop, RightStop, CentredStop, Glyph, Blanks};
ghost use Rattle.law_lines.specs.LawWords.{Printed, TabStop, AtRight, InMiddle, Event, Print, Tab};
ghost use Rattle.law_lines.specs.LawWords.{FieldEnd, WordEnd, LineEnd, Count, Break, Interrupt};
ghost use Rattle.law_lines.specs.LawWords.{Resume, Set, fills, TabStops, columns_of_way};
ghost use Rattle.law_lines.specs.LawWords.{way_to_next, History, settings_after, stops_after};
ghost use Rattle.law_lines.specs.LawWords.{is_interrupted, moved, tab_width, place_in, Word};
ghost use Rattle.law_lines.specs.LawWords.{is_empty, words, temporary_indent, has_word_in};
ghost use Rattle.law_lines.specs.LawWords.{Finished, line_bytes, printed, device_line};
ghost use Rattle.law_lines.specs.LawWords.{StandsInColumns, until_break, full_lines, broken_lines};
ghost use Rattle.law_lines.specs.LawWords.{paragraph_lines, lines_in, EndsAtWidth, glyphs_told};
ghost use Rattle.law_lines.specs.LawWords.{words_told, bytes_told, text_line, IsOfText};
ghost use Rattle.law_lines.specs.LawWords.{IsWordUnder, IsClear, diverted, title_columns, Field};
ghost use Rattle.law_lines.specs.LawWords.{plain, told_plainly, input_place, pending_length};
ghost use Rattle.law_lines.specs.LawWords.{finished};
ghost use Rattle.law_lines.specs.LawWords.{finished_lines, last_width, written_by_break};
ghost use Rattle.law_lines.specs.LawWords.{lines_written, StandsAtStop, MovesField, TabLeads};
ghost use Rattle.law_lines.specs.LawWords.{glyphs_width, SetsNoField, without_field_ends, stop_at};
ghost use Rattle.law_lines.specs.LawWords.{LeadsToNearest, lines_of, FillsLines, MeasuredWord};
ghost use Rattle.law_lines.specs.LawWords.{first_line_count, TakesFirstLine, uninterrupted};
ghost use Rattle.law_lines.specs.LawWords.{LeaveTheSame, AtLeft, length_reached};

/// Filling takes the longest fronts: the lines of a paragraph have its words in order; each word of
/// a line but the first fits behind those before it; and the word that begins the next line didn't.
pub fn longest_fronts()
    ensures { (words : List Word) → FillsLines words }
{}

/// The first line of a paragraph's words takes as many of them as `fill_words` of `roff_lines`
/// counts, told their gaps and widths and the measure that the line's indent leaves. Words behind
/// one that doesn't fit change nothing of that.
pub fn first_lines()
    ensures words { (s : Settings) (indent : ℕ) (words : List Word)
        → TakesFirstLine s indent words }
    ensures front { (measure : ℕ) (words more : List MeasuredWord)
        → first_line_count measure words < length words
        → first_line_count measure (words ++ more) ≡ first_line_count measure words }
{}

/// A finished line's text stands in its columns: before its k-th byte stand the lead, the widths
/// and gaps before it, and what adjusting adds to these gaps.
pub fn columns()
    ensures { (line : Finished) → StandsInColumns line }
{}

/// A finished line's text ends as many columns behind its lead as the line is wide.
pub fn widths()
    ensures { (h : History) (e : Event) → IfSome (finished h e) EndsAtWidth }
{}

/// How wide the last finished line is on worked rows. Of the five words the first three are the
/// last finished line: eight columns, or twelve where its gaps are widened.
pub fn last_width_rows()
    ensures nothing { last_width [] ≡ 0 }
    ensures pending { last_width (WordEnd ∷ bytes_told (codes "a bb ccc") []) ≡ 0 }
    ensures spread { let before = Set (LineLength 12) ∷ [] in
        last_width (WordEnd ∷ bytes_told (codes "a bb ccc dddd eeeee") before) ≡ 12 }
    ensures indented { let before = Set (Indent 3) ∷ Set (LineLength 15) ∷ [] in
        last_width (WordEnd ∷ bytes_told (codes "a bb ccc dddd eeeee") before) ≡ 12 }
    ensures not_adjusted { let before = Set (Adjusting false) ∷ Set (LineLength 12) ∷ [] in
        last_width (WordEnd ∷ bytes_told (codes "a bb ccc dddd eeeee") before) ≡ 8 }
    ensures right_edge { let before = Set (Mode Right) ∷ Set (LineLength 12) ∷ [] in
        last_width (WordEnd ∷ bytes_told (codes "a bb ccc dddd eeeee") before) ≡ 8 }
    ensures centred { let before = Set (Mode Centre) ∷ Set (LineLength 12) ∷ [] in
        last_width (WordEnd ∷ bytes_told (codes "a bb ccc dddd eeeee") before) ≡ 8 }
    ensures broken { last_width (Break ∷ WordEnd ∷ bytes_told (codes "dddd eeeee") []) ≡ 10 }
    ensures two_bytes { last_width (Break ∷ WordEnd ∷ bytes_told (195 ∷ 169 ∷ []) []) ≡ 1 }
    ensures not_filled { let before = Set (Filling false) ∷ [] in
        last_width (LineEnd ∷ WordEnd ∷ bytes_told (codes "x  y") before) ≡ 4 }
    ensures empty_line { let before = Set (Filling false) ∷ [] in
        last_width (LineEnd ∷ LineEnd ∷ WordEnd ∷ bytes_told (codes "x  y") before) ≡ 0 }
{}

/// What an environment writes on worked rows: an indent for one line alone, lines that are centred,
/// blank lines behind lines, tabs, and a line of the input that is interrupted. The newest line
/// comes first.
pub fn line_rows()
    // `.ll 8n`, `.ti 2n`: the first line alone is indented
    ensures temporary { lines_written (Break ∷ WordEnd ∷ bytes_told (codes "aa bb cc dd")
        (Set (TemporaryIndent 2) ∷ Set (LineLength 8) ∷ []))
        ≡ codes "cc dd" ∷ codes "  aa  bb" ∷ [] }
    // it waits behind an empty line, and behind a break
    ensures waits { lines_written (text_line (codes "a")
        (Break ∷ LineEnd ∷ Set (TemporaryIndent 2) ∷ Set (Filling false) ∷ []))
        ≡ codes "  a" ∷ [] ∷ [] }
    // `.ce`, `.ll 8n`: two lines, of which one is centred; a break doesn't use it up
    ensures centred { lines_written (Break ∷ text_line (codes "cc") (text_line (codes "bb")
        (Break ∷ WordEnd ∷ bytes_told (codes "aa") (Set (Centring 1) ∷ Set (LineLength 8) ∷ []))))
        ≡ codes "cc" ∷ codes "   bb" ∷ codes "   aa" ∷ [] }
    // it is used up by the end of its line, so what stands between that and the count isn't centred
    ensures centred_ends { lines_written (Break ∷ WordEnd ∷ bytes_told (codes "foot")
        (LineEnd ∷ WordEnd ∷ bytes_told (codes "a") (Set (Centring 1) ∷ Set (LineLength 9) ∷ [])))
        ≡ codes "foot" ∷ codes "    a" ∷ [] }
    // the count behind it uses none up that was set between
    ensures centred_between { lines_written (text_line (codes "b") (Count ∷ Set (Centring 1)
        ∷ LineEnd ∷ WordEnd ∷ bytes_told (codes "a")
        (Set (Filling false) ∷ Set (LineLength 9) ∷ [])))
        ≡ codes "    b" ∷ codes "a" ∷ [] }
    // a centred line is neither measured nor adjusted, and never starts before its indent
    ensures centred_wide { lines_written (text_line (codes "aa bb") (Set (Centring 1)
        ∷ Set (Mode Right) ∷ Set (Indent 1) ∷ Set (LineLength 3) ∷ []))
        ≡ codes " aa bb" ∷ [] }
    // in filling an empty line isn't written while lines are centred
    ensures centred_nothing { lines_written (Count ∷ LineEnd ∷ Set (Centring 2) ∷ []) ≡ [] }
    // without `.ta` the stops stand every eight columns, and a tab at one moves to the next
    ensures tabs { lines_written (Break ∷ WordEnd ∷ Print (Printed 98) ∷ Tab ∷ Tab
        ∷ bytes_told (codes "a") []) ≡ codes "a               b" ∷ [] }
    // `.ta 8n 4n`: the nearest stop comes first, whatever the order; behind the last one none does
    ensures stops { lines_written (Break ∷ WordEnd ∷ Print (Printed 99) ∷ Tab ∷ Print (Printed 98)
        ∷ Tab ∷ Tab ∷ bytes_told (codes "a") (Set (Stop 4) ∷ Set (Stop 8) ∷ Set NoStops ∷ []))
        ≡ codes "a       bc" ∷ [] }
    // a gap counts in the place on the line of the input, and a break doesn't change that
    ensures place { input_place (Break ∷ Tab ∷ bytes_told (codes "ab  c") []) ≡ 8 }
    ensures place_behind { input_place (LineEnd ∷ Tab ∷ bytes_told (codes "ab  c") []) ≡ 0 }
    // an interrupted line goes on in the same word, and its sentence isn't over
    ensures interrupted { lines_written (Break ∷ WordEnd ∷ bytes_told (codes "cd")
        (Resume ∷ Interrupt ∷ bytes_told (codes "ab") [])) ≡ codes "abcd" ∷ [] }
    ensures is_interrupted { is_interrupted (Break ∷ Interrupt ∷ bytes_told (codes "ab") [])
        ≡ true }
    // and the end of another line doesn't end it
    ensures line_ends { is_interrupted (LineEnd ∷ Interrupt ∷ bytes_told (codes "ab") []) ≡ true }
    // `.ls 3`: two blank lines behind each line, an empty one too
    ensures spaced { map line_bytes (finished_lines (text_line (codes "a")
        (LineEnd ∷ Set (Spacing 3) ∷ Set (Filling false) ∷ [])))
        ≡ (97 ∷ 10 ∷ 10 ∷ 10 ∷ []) ∷ (10 ∷ 10 ∷ 10 ∷ []) ∷ [] }
{}

/// The blanks behind a line of the input, on worked rows: its last word says whether a sentence
/// ends with it. A gap or a break in front of closers parts them from the word before.
pub fn sentence_rows()
    ensures gap { lines_written (Break ∷ text_line (codes "bar") (text_line (codes "foo. )") []))
        ≡ codes "foo. ) bar" ∷ [] }
    ensures brackets { lines_written (Break ∷ text_line (codes "bar")
        (text_line (codes "a [ opt ... ]") [])) ≡ codes "a [ opt ... ] bar" ∷ [] }
    ensures blank_at_the_end { lines_written (Break ∷ text_line (codes "bar")
        (text_line (codes "foo. ") [])) ≡ codes "foo.  bar" ∷ [] }
    // the word goes on over an interruption
    ensures interrupted { lines_written (Break ∷ text_line (codes "bar") (text_line (codes ")")
        (Resume ∷ Interrupt ∷ bytes_told (codes "foo.") []))) ≡ codes "foo.)  bar" ∷ [] }
    ensures gap_and_interrupted { lines_written (Break ∷ text_line (codes "bar")
        (text_line (codes ")") (Resume ∷ Interrupt ∷ bytes_told (codes "foo. ") [])))
        ≡ codes "foo. ) bar" ∷ [] }
    ensures break_between { lines_written (Break ∷ text_line (codes "bar") (text_line (codes ")")
        (Resume ∷ Break ∷ WordEnd ∷ Interrupt ∷ bytes_told (codes "foo.") [])))
        ≡ codes ") bar" ∷ codes "foo." ∷ [] }
    // a glyph without width is another glyph
    ensures other_glyph { lines_written (Break ∷ text_line (codes "bar") (text_line (codes ")")
        (Print (Blanks 0) ∷ bytes_told (codes "foo.") []))) ≡ codes "foo.) bar" ∷ [] }
{}

/// The gap of a word that begins directly behind the end of another one, as text does that is put
/// between two words of a line, on worked rows.
pub fn begun_gap_rows()
    ensures word { lines_written (Break ∷ WordEnd ∷ bytes_told (codes "foot")
        (WordEnd ∷ bytes_told (codes "five") [])) ≡ codes "five foot" ∷ [] }
    ensures sentence { lines_written (Break ∷ WordEnd ∷ bytes_told (codes "foot")
        (WordEnd ∷ bytes_told (codes "five.)") [])) ≡ codes "five.)  foot" ∷ [] }
    ensures closer_apart { lines_written (Break ∷ WordEnd ∷ bytes_told (codes "foot")
        (WordEnd ∷ bytes_told (codes "five. )") [])) ≡ codes "five. ) foot" ∷ [] }
    ensures tab { lines_written (Break ∷ WordEnd ∷ Print (Printed 98) ∷ Tab
        ∷ WordEnd ∷ bytes_told (codes "a") []) ≡ codes "a        b" ∷ [] }
    // the first word of a line and of a paragraph has none
    ensures first { lines_written (Break ∷ WordEnd ∷ bytes_told (codes "foot")
        (Break ∷ WordEnd ∷ bytes_told (codes "five") [])) ≡ codes "foot" ∷ codes "five" ∷ [] }
    // `.ll 9n`, `.ll 8n`: the gap counts where a word is to fit
    ensures fits { lines_written (Break ∷ WordEnd ∷ bytes_told (codes "foot")
        (WordEnd ∷ bytes_told (codes "five") (Set (LineLength 9) ∷ []))) ≡ codes "five foot" ∷ [] }
    ensures too_wide { lines_written (Break ∷ WordEnd ∷ bytes_told (codes "foot")
        (WordEnd ∷ bytes_told (codes "five") (Set (LineLength 8) ∷ [])))
        ≡ codes "foot" ∷ codes "five" ∷ [] }
    // and where a line is adjusted
    ensures adjusted { lines_written (WordEnd ∷ bytes_told (codes " long") (WordEnd
        ∷ bytes_told (codes "foot") (WordEnd ∷ bytes_told (codes "five") (Set (LineLength 12)
        ∷ [])))) ≡ codes "five    foot" ∷ [] }
    // the limit on a line counts it with the word's first glyph
    ensures limit { pending_length (bytes_told (codes "f") (WordEnd ∷ bytes_told (codes "five") []))
        ≡ 6 }
    ensures limit_behind_sentence { pending_length (bytes_told (codes "f")
        (WordEnd ∷ bytes_told (codes "five.") [])) ≡ 8 }
    // text lines between the words: the line's own gap behind them adds nothing
    ensures between { lines_written (Break ∷ WordEnd ∷ bytes_told (codes " long")
        (text_line (codes "foot") (WordEnd ∷ bytes_told (codes "five") [])))
        ≡ codes "five foot long" ∷ [] }
    ensures sentence_between { lines_written (Break ∷ WordEnd ∷ bytes_told (codes " long")
        (text_line (codes "foot.") (WordEnd ∷ bytes_told (codes "five") [])))
        ≡ codes "five foot.  long" ∷ [] }
    // and doesn't move the place on the line of the input
    ensures place_between { input_place (bytes_told (codes " long")
        (text_line (codes "foot") (WordEnd ∷ bytes_told (codes "five") []))) ≡ 4 }
{}

/// Where the parts of worked titles stand, told the title's length and how wide they are.
pub fn title_rows()
    // `.lt 9n`: a centre part of five columns
    ensures centred { title_columns 9 0 5 0 ≡ 0 ∷ 2 ∷ 9 ∷ [] }
    // `.lt 5n`: an empty centre part has its place
    ensures empty_centre { title_columns 5 1 0 2 ≡ 0 ∷ 2 ∷ 3 ∷ [] }
    ensures held_back { title_columns 7 0 0 5 ≡ 0 ∷ 3 ∷ 3 ∷ [] }
    // no part begins before the one in front of it ends, and none in front of the line
    ensures behind { title_columns 9 6 4 3 ≡ 0 ∷ 6 ∷ 10 ∷ [] }
    ensures too_wide { title_columns 9 0 12 0 ≡ 0 ∷ 0 ∷ 12 ∷ [] }
{}

/// What worked lines are as they are printed, what they write behind a page offset, and what a
/// diversion keeps of them.
pub fn printed_rows()
    // two words, a gap that gets a column, and a blank of a glyph at the end
    ensures printed { printed (record {
      text = 97 ∷ 32 ∷ 98 ∷ 0 ∷ [];
      lead = 1;
      spare = 1;
      gaps = 1;
      after = 2;
    }) ≡ codes " a  b " }
    ensures offset { device_line 2 (codes " a  b ") ≡ codes "   a  b" ++ 10 ∷ [] }
    ensures nothing { device_line 2 (codes "  ") ≡ 10 ∷ [] }
    ensures diverted { diverted (codes " a  b ") ≡ codes "\\&\\ a\\ \\ b\\ " ++ 10 ∷ [] }
    ensures backslash { diverted (codes "a\\n") ≡ codes "\\&a\\en" ++ 10 ∷ [] }
    ensures empty { diverted [] ≡ codes "\\&" ++ 10 ∷ [] }
{}

/// A tab leads from a place to the nearest stop beyond it, and to none where none stands beyond. Of
/// several stops at that place the one that was set first says of which kind the way is. In which
/// order stops at different places were set, and how often, changes nothing.
pub fn nearest_stops()
    ensures leads { (stops : TabStops) (place : ℕ)
        → LeadsToNearest stops place (way_to_next stops place) }
    ensures width { (h : History)
        → tab_width h ≡ columns_of_way (way_to_next (stops_after h) (place_in h)) }
    ensures any_order { (stops more : TabStops) (place : ℕ)
        → ((n : ℕ) → stop_at stops n ≡ stop_at more n)
        → way_to_next stops place ≡ way_to_next more place }
    ensures swapped { (s t : TabStop) (front behind : List TabStop) (place : ℕ)
        → (s.column ≡ t.column → ⊥)
        → way_to_next (Some (front ++ s ∷ t ∷ behind)) place
        ≡ way_to_next (Some (front ++ t ∷ s ∷ behind)) place }
{}

/// A line of the input that is interrupted goes on in the same word: glyphs in front of the
/// interruption and behind it leave what the same glyphs leave without it. More events than glyphs
/// may stand before, between and behind: an interruption changes nothing wherever it stands.
pub fn interrupted_lines()
    ensures same_word { (front back : List Glyph) (h : History) → LeaveTheSame
        (glyphs_told back (Resume ∷ Interrupt ∷ glyphs_told front h))
        (glyphs_told (front ++ back) h) }
    ensures anywhere { (h : History) → LeaveTheSame h (uninterrupted h) }
{}

/// A printed byte above the blank is written as itself: a new environment that is told a word of
/// such bytes writes them and a newline at a break.
pub fn printed_bytes()
    ensures word { (bytes : List ℕ) → 0 < length bytes → All (λ b. 32 < b) bytes
        → written_by_break (WordEnd ∷ glyphs_told (map Printed bytes) [])
        ≡ Some (bytes ++ 10 ∷ []) }
    ensures byte { (b : ℕ) → 32 < b
        → written_by_break (WordEnd ∷ Print (Printed b) ∷ []) ≡ Some (b ∷ 10 ∷ []) }
{}

/// What a paragraph writes is its lines, laid out one after another.
///
/// A history has finished the lines of its words since the last break, but for the last of these
/// lines, which is pending. A break finishes that one too, and so does a line's end behind words
/// where nothing is filled. So a text in filling, and then a break, finish the lines of the text's
/// words, and so do words that are told one after another. All lines but the last are adjusted. The
/// words of a history are those that it has told without fields.
pub fn paragraphs()
    ensures pending { (h : History) → finished_lines h
        ≡ full_lines (lines_of (words (plain h))) ++ finished_lines (until_break h) }
    ensures broken { (h : History) → finished_lines (Break ∷ h)
        ≡ broken_lines (settings_after h) (lines_of (words (plain h)))
        ++ finished_lines (until_break h) }
    ensures unfilled { (h : History)
        → fills (settings_after h) ≡ false → is_empty (words (plain h)) ≡ false
        → finished_lines (LineEnd ∷ h)
        ≡ broken_lines (settings_after h) (lines_of (words (plain h)))
        ++ finished_lines (until_break h) }
    ensures text { (text : List Event) (h : History)
        → IsClear (plain h) → fills (settings_after h) ≡ true → All IsOfText text
        → finished_lines (Break ∷ text ++ h)
        ≡ paragraph_lines (settings_after h) (lines_of (words (plain (text ++ h))))
        ++ finished_lines h }
    ensures told { (ws : List Word) (h : History)
        → IsClear (plain h) → temporary_indent (plain h) ≡ None
        → All (IsWordUnder (settings_after h)) ws
        → finished_lines (Break ∷ words_told ws h)
        ≡ paragraph_lines (settings_after h) (lines_of ws) ++ finished_lines h }
    ensures clear_at_first { IsClear (plain []) }
    ensures clear_at_break { (h : History)
        → has_word_in (plain h) ≡ false → IsClear (plain (Break ∷ h)) }
{}

/// The text of a field stands at its stop (manual, section 9.1): it ends at a right one, and has
/// its middle at a centred one: half of its columns, rounded down, stand in front of that. Where
/// what is to stand there is longer than the way to the stop, the text begins at its tab.
///
/// It is moved as a whole once the field ends: its glyphs stay, and no line is lost. A tab ends the
/// field before it. A history that sets no such stop is told as it is.
pub fn fields()
    ensures stands { (f : Field) → StandsAtStop f }
    ensures moves { (h : History) (f : Field) → (told_plainly h).field ≡ Some f → MovesField h f }
    ensures right { (h : History) (n : ℕ) (glyphs : List Glyph) → TabLeads h AtRight n
        → input_place (FieldEnd ∷ glyphs_told glyphs (Tab ∷ h))
        ≡ moved (max n (glyphs_width glyphs)) (input_place h) }
    ensures centred { (h : History) (n : ℕ) (glyphs : List Glyph) → TabLeads h InMiddle n
        → input_place (FieldEnd ∷ glyphs_told glyphs (Tab ∷ h))
        ≡ moved (n - glyphs_width glyphs / 2 + glyphs_width glyphs) (input_place h) }
    ensures left { (h : History) (n : ℕ) → TabLeads h AtLeft n
        → input_place (Tab ∷ h) ≡ moved n (input_place h) }
    ensures tab { (h : History) (f : Field) → (told_plainly h).field ≡ Some f → f.gap ≡ 0
        → told_plainly (Tab ∷ h) ≡ told_plainly (Tab ∷ FieldEnd ∷ h) }
    ensures lines { (h : History) → finished_lines h ≡ lines_in (plain h) }
    ensures none { (h : History) → All SetsNoField h → plain h ≡ without_field_ends h }
{}

/// What an environment writes of fields, on worked rows. The newest line comes first.
pub fn field_rows()
    // `.nf`, `.ta 10nR`: text ends at the stop
    ensures right { let before = Set (RightStop 10) ∷ Set NoStops ∷ Set (Filling false) ∷ [] in
        lines_written (LineEnd ∷ WordEnd ∷ FieldEnd ∷ bytes_told (codes "abc") (Tab ∷ before))
        ≡ codes "       abc" ∷ [] }
    // and begins at the tab where it is longer
    ensures long { let before = Set (RightStop 10) ∷ Set NoStops ∷ Set (Filling false) ∷ [] in
        lines_written (LineEnd ∷ WordEnd ∷ FieldEnd
        ∷ bytes_told (codes "abcdefghijkl") (Tab ∷ before)) ≡ codes "abcdefghijkl" ∷ [] }
    // `.ta 10nC`: it has its middle there
    ensures centred { let before = Set (CentredStop 10) ∷ Set NoStops ∷ Set (Filling false) ∷ [] in
        lines_written (LineEnd ∷ WordEnd ∷ FieldEnd ∷ bytes_told (codes "abc") (Tab ∷ before))
        ≡ codes "         abc" ∷ [] }
    // `.ta 3nC`: half of the text is longer than the way
    ensures centred_long { let before = Set (CentredStop 3) ∷ Set NoStops
        ∷ Set (Filling false) ∷ [] in
        lines_written (LineEnd ∷ WordEnd ∷ FieldEnd ∷ bytes_told (codes "abcdefgh")
        (Tab ∷ before)) ≡ codes "abcdefgh" ∷ [] }
    // `.ta 8nR 12n`: a tab ends the field, and leads on from its stop
    ensures tab { let before = Set (Stop 12) ∷ Set (RightStop 8) ∷ Set NoStops
        ∷ Set (Filling false) ∷ [] in
        lines_written (LineEnd ∷ WordEnd ∷ Print (Printed 100) ∷ Tab ∷ bytes_told (codes "b c")
        (Tab ∷ bytes_told (codes "a") before)) ≡ codes "a    b c    d" ∷ [] }
    // a gap at the end isn't of the text
    ensures gap { let before = Set (RightStop 10) ∷ Set NoStops ∷ Set (Filling false) ∷ [] in
        lines_written (LineEnd ∷ WordEnd ∷ FieldEnd ∷ bytes_told (codes "abc ") (Tab ∷ before))
        ≡ codes "       abc" ∷ [] }
    // `.ta 5nR 10nR`: two fields, one behind the other
    ensures two { let before = Set (RightStop 10) ∷ Set (RightStop 5) ∷ Set NoStops
        ∷ Set (Filling false) ∷ [] in
        lines_written (LineEnd ∷ WordEnd ∷ FieldEnd ∷ bytes_told (codes "b")
        (Tab ∷ bytes_told (codes "a") (Tab ∷ before))) ≡ codes "    a    b" ∷ [] }
    // a field goes on over an interruption
    ensures interrupted { let before = Set (RightStop 10) ∷ Set NoStops
        ∷ Set (Filling false) ∷ [] in
        lines_written (LineEnd ∷ WordEnd ∷ FieldEnd ∷ bytes_told (codes "c")
        (Resume ∷ Interrupt ∷ bytes_told (codes "ab") (Tab ∷ before)))
        ≡ codes "       abc" ∷ [] }
    // a gap within it parts closers from the word before
    ensures sentence { let before = Set (RightStop 10) ∷ Set NoStops ∷ [] in
        lines_written (Break ∷ text_line (codes "bar") (LineEnd ∷ WordEnd ∷ FieldEnd
        ∷ bytes_told (codes "foo. )") (Tab ∷ before))) ≡ codes "    foo. ) bar" ∷ [] }
    // `.ll 6n`: a tab behind a gap ends the word in front of that, which finishes a line
    ensures tab_finishes { let before = Set (RightStop 10) ∷ Set NoStops
        ∷ Set (LineLength 6) ∷ [] in
        option_map line_bytes (finished (bytes_told (codes "bc ")
        (Tab ∷ bytes_told (codes "aaaa ") before)) Tab) ≡ Some (codes "aaaa" ++ 10 ∷ []) }
    // the place and the limit on a line count the motion once the field has ended
    ensures place { let before = Set (RightStop 10) ∷ Set NoStops ∷ [] in
        input_place (bytes_told (codes "abc") (Tab ∷ before)) ≡ 3 }
    ensures place_ended { let before = Set (RightStop 10) ∷ Set NoStops ∷ [] in
        input_place (FieldEnd ∷ bytes_told (codes "abc") (Tab ∷ before)) ≡ 10 }
    ensures limit { let before = Set (RightStop 10) ∷ Set NoStops ∷ [] in
        pending_length (bytes_told (codes "abc") (Tab ∷ before)) ≡ 3 }
    ensures limit_tab { let before = Set (RightStop 10) ∷ Set NoStops ∷ [] in
        length_reached Tab (bytes_told (codes "abc") (Tab ∷ before)) ≡ 10 }
    ensures limit_ended { let before = Set (RightStop 10) ∷ Set NoStops ∷ [] in
        pending_length (FieldEnd ∷ bytes_told (codes "abc") (Tab ∷ before)) ≡ 10 }
{}
