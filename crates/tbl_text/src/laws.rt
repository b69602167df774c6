//! Facts about the items of texts and what they measure, as contracts of functions that do nothing.

ghost use Rattle.std.specs.Prelude.{◌≡◌, ℕ, ◌∷◌, ◌++◌, [], List, Some, None, codes, false, true};
ghost use Rattle.std.specs.Prelude.{map, length, take, drop, ◌≤◌, ◌<◌, ◌+◌};
ghost use Rattle.std.specs.List.{AllByRecursion};
ghost use Rattle.tbl_text.specs.Fitted.{fitting, fitting_text};
ghost use Rattle.tbl_text.specs.Items.{Item, columns, items};
ghost use Rattle.tbl_text.specs.Laws.{ArePlain, byte_item, parts, plain_measured, whats};
ghost use Rattle.tbl_text.specs.Measuring.{bytes_of, measured, notes_from, width_of};
ghost use Rattle.tbl_text.specs.declared.items.What.TheVariants.{Ampersand, Blank, Byte, Dropped};
ghost use Rattle.tbl_text.specs.declared.items.What.TheVariants.{Glyph, NotMeasured, Nothing};

/// What the bytes of a text are: each for itself, behind backslashes, within escapes and at the
/// text's end.
pub fn item_rows()
    ensures plain { whats (codes "a b") ≡ Byte 97 ∷ Blank ∷ Byte 98 ∷ [] }
    ensures font { parts (codes "\\fBx\\fR") ≡ codes "\\fB" ∷ codes "x" ∷ codes "\\fR" ∷ [] }
    ensures fonts { whats (codes "\\fBx\\f(CW") ≡ Nothing ∷ Byte 120 ∷ Nothing ∷ [] }
    ensures characters { whats (codes "\\(em\\(bu\\(zz") ≡ Glyph 2 ∷ Byte 42 ∷ Nothing ∷ [] }
    ensures special { whats (codes "\\&\\ \\-\\e\\|\t")
        ≡ Ampersand ∷ Glyph 1 ∷ Byte 45 ∷ Byte 92 ∷ Nothing ∷ NotMeasured 116 ∷ [] }
    ensures size { parts (codes "\\s10x\\s+12") ≡ codes "\\s10" ∷ codes "x" ∷ codes "\\s+1"
        ∷ codes "2" ∷ [] }
    ensures within { parts (codes "\\w'\\w\"a\"\\n(xx'c") ≡ codes "\\w'\\w\"a\"\\n(xx'"
        ∷ codes "c" ∷ [] }
    ensures within_is { whats (codes "\\w'\\w\"a\"\\n(xx'c") ≡ NotMeasured 119 ∷ Byte 99 ∷ [] }
    ensures told { whats (codes "\\n+x\\*(st\\$1\\c\\{\\h'1'\\u\\v'2'\\k(ab") ≡ NotMeasured 110
        ∷ NotMeasured 42 ∷ NotMeasured 36 ∷ NotMeasured 99 ∷ NotMeasured 123 ∷ NotMeasured 104
        ∷ NotMeasured 117 ∷ NotMeasured 118 ∷ NotMeasured 107 ∷ [] }
    ensures backslash_in_name { parts (codes "\\f\\ab") ≡ codes "\\f\\a" ∷ codes "b" ∷ [] }
    ensures dropped_within { parts (codes "\\f" ++ 1 ∷ codes "Bx") ≡ (codes "\\f" ++ 1 ∷ codes "B")
        ∷ codes "x" ∷ [] }
    ensures dropped_between { parts (codes "\\s1" ++ 1 ∷ codes "x") ≡ codes "\\s1" ∷ (1 ∷ [])
        ∷ codes "x" ∷ [] }
    ensures dropped_at_end { parts (codes "\\h'1" ++ 1 ∷ []) ≡ codes "\\h'1" ∷ (1 ∷ []) ∷ [] }
    ensures cut_character { whats (codes "\\(e") ≡ Nothing ∷ [] }
    ensures cut_motion { whats (codes "\\h'1") ≡ NotMeasured 104 ∷ [] }
    ensures cut_register { whats (codes "\\n(") ≡ NotMeasured 110 ∷ [] }
    ensures cut_within { whats (codes "\\w'\\h\"\\n(") ≡ NotMeasured 119 ∷ [] }
    ensures cut_backslash { whats (codes "x\\") ≡ Byte 120 ∷ Nothing ∷ [] }
    ensures deepest { parts (codes "\\n(\\n(\\n(\\n(\\n(\\n(\\n(\\n(\\n(aaaaaaaaaaaaaaax")
        ≡ codes "\\n(\\n(\\n(\\n(\\n(\\n(\\n(\\n(\\n(aaaaaaaaaaaaaaa" ∷ codes "x" ∷ [] }
    ensures comment { parts (codes "x\\\"y\\z") ≡ codes "x" ∷ codes "\\\"y\\z" ∷ [] }
{}

/// The bytes of a text's items, in order, are the text: none is lost, and none is in two of them.
/// Each item has one.
pub fn joined()
    ensures whole { (text : List ℕ) → bytes_of (items text) ≡ text }
    ensures some { (text : List ℕ) → AllByRecursion (λ i. 1 ≤ length i.bytes) (items text) }
{}

/// The items of a text that is cut to so many columns are the first of its items, as many as fit:
/// what is cut is read as it was before. With one item more they wouldn't fit.
pub fn fitted()
    ensures items { (room : ℕ) (text : List ℕ)
        → items (fitting_text room text) ≡ fitting room (items text) }
    ensures front { (room : ℕ) (xs : List Item)
        → take (length (fitting room xs)) xs ≡ fitting room xs }
    ensures width { (room : ℕ) (xs : List Item)
        → width_of (fitting room xs) ≤ room }
    ensures longest { (room : ℕ) (xs rest : List Item) (next : Item)
        → drop (length (fitting room xs)) xs ≡ next ∷ rest
        → room < width_of (fitting room xs) + columns next.what }
{}

/// Of a text without control bytes and backslashes each byte is an item. So is each byte of such a
/// front of a text, whatever stands behind it.
pub fn plain_texts()
    ensures whole { (text : List ℕ) → ArePlain text → items text ≡ map byte_item text }
    ensures front { (front text : List ℕ) → ArePlain front
        → items (front ++ text) ≡ map byte_item front ++ items text }
{}

/// A text without control bytes and backslashes is measured by its bytes: its last blanks stand
/// behind its last glyph.
pub fn plain_measures()
    ensures { (text : List ℕ) → ArePlain text → measured false text ≡ plain_measured text }
{}

/// What texts measure, as texts and as numbers: where these split, and the `\&` that goes.
pub fn measure_rows()
    ensures text { measured false (codes "a\\fBb\\fR ")
        ≡ record { width = 3; glyphs = 5; split = None; has_notes = false } }
    ensures number { measured true (codes "12.5")
        ≡ record {
          width = 4;
          glyphs = 4;
          has_notes = false;
          split = Some (record { left = 2; end = 2; behind = 2 });
        } }
    ensures rightmost_dot { measured true (codes "1.2.3a")
        ≡ record {
          width = 6;
          glyphs = 6;
          has_notes = false;
          split = Some (record { left = 3; end = 3; behind = 3 });
        } }
    ensures dot_alone { measured true (codes "1.2. a")
        ≡ record {
          width = 6;
          glyphs = 6;
          has_notes = false;
          split = Some (record { left = 3; end = 3; behind = 3 });
        } }
    ensures dot_over_font { measured true (codes "7 .\\fB5")
        ≡ record {
          width = 4;
          glyphs = 7;
          has_notes = false;
          split = Some (record { left = 4; end = 7; behind = 7 });
        } }
    ensures dot_over_dropped { measured true (codes "1" ++ 1 ∷ codes ".")
        ≡ record {
          width = 2;
          glyphs = 3;
          has_notes = false;
          split = Some (record { left = 1; end = 2; behind = 2 });
        } }
    ensures escaped_dot { measured true (codes "5\\.2x")
        ≡ record {
          width = 4;
          glyphs = 5;
          has_notes = false;
          split = Some (record { left = 3; end = 4; behind = 4 });
        } }
    ensures digit_in_escape { measured true (codes "7x\\s2")
        ≡ record {
          width = 2;
          glyphs = 2;
          has_notes = false;
          split = Some (record { left = 1; end = 1; behind = 1 });
        } }
    ensures ampersand { measured true (codes "1.5\\&2\\&")
        ≡ record {
          width = 4;
          glyphs = 8;
          has_notes = false;
          split = Some (record { left = 3; end = 3; behind = 5 });
        } }
    ensures last_ampersand { measured true (codes "12 \\&")
        ≡ record {
          width = 3;
          glyphs = 2;
          has_notes = false;
          split = Some (record { left = 3; end = 3; behind = 5 });
        } }
    ensures ampersand_of_text { measured false (codes "12 \\&")
        ≡ record { width = 3; glyphs = 5; split = None; has_notes = false } }
    ensures no_number { measured true (codes "none")
        ≡ record { width = 4; glyphs = 4; split = None; has_notes = false } }
    ensures told { measured false (codes "a\tb\\h'1'")
        ≡ record { width = 2; glyphs = 8; split = None; has_notes = true } }
    ensures notes { notes_from 0 (items (codes "a\tb\\w'\\nx'\\nx"))
        ≡ record { place = 1; byte = 116 } ∷ record { place = 3; byte = 119 }
        ∷ record { place = 10; byte = 110 } ∷ [] }
{}
