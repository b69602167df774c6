//! Facts about what is half read, as contracts of functions that do nothing.

ghost use Rattle.std.specs.Prelude.{◌++◌, ◌≡◌, ℕ, ◌*◌, ◌<◌, ◌≤◌, Bool, true, false, not, List, []};
ghost use Rattle.std.specs.Prelude.{◌∷◌, bytes_eq, codes, length, map, min, replicate, Option};
ghost use Rattle.std.specs.Prelude.{None, Some, ◌==◌, ℤ, pos};
ghost use Rattle.input_source.specs.Bytes.{backslash, blank, quote};
ghost use Rattle.input_escapes.specs.Escapes.{escape_of, is_copied};
ghost use Rattle.input_escapes.specs.OpenEscape.{OpenEscape, Comment, Name};
ghost use Rattle.input_escapes.specs.EscapeLaws.{FindsBytes, argument_escape, asked, columns_in};
ghost use Rattle.input_escapes.specs.EscapeLaws.{copied, decided, delimits_texts, doubled};
ghost use Rattle.input_escapes.specs.EscapeLaws.{is_between, is_only_copied, is_special};
ghost use Rattle.input_escapes.specs.EscapeLaws.{long_escape, openings, reads_through};
ghost use Rattle.input_escapes.specs.EscapeLaws.{reads_to_end, register_escape, short_escape};
ghost use Rattle.input_escapes.specs.EscapeLaws.{string_escape, text_escape, two_texts};
ghost use Rattle.input_escapes.specs.OpenEscapes.{most_names, reading_ended, reads_text};
ghost use Rattle.input_escapes.specs.OpenEscapes.{reads_widths};
ghost use Rattle.input_escapes.specs.Measures.{columns_of, most_width, motion_of, remarked};
ghost use Rattle.input_escapes.specs.Nesting.{AreNames, IsNested};
ghost use Rattle.input_escapes.specs.declared.escapes.Escape.TheVariants.{Name as BeginsName};
ghost use Rattle.input_escapes.specs.declared.escapes.Escape.TheVariants.{Text as BeginsText};
ghost use Rattle.input_escapes.specs.declared.escapes.NameUse.{NameUse};
ghost use Rattle.input_escapes.specs.declared.escapes.NameUse.TheVariants.{Argument, Character};
ghost use Rattle.input_escapes.specs.declared.escapes.NameUse.TheVariants.{Register, Text};
ghost use Rattle.input_escapes.specs.declared.escapes.TextUse.TheVariants.{LeftOut as LeftOutText};
ghost use Rattle.input_escapes.specs.declared.open_escape.CopyUnit.TheVariants.{Byte};
ghost use Rattle.input_escapes.specs.declared.open_escape.Decision.TheVariants.{Is, OnPages};
ghost use Rattle.input_escapes.specs.declared.open_escape.NamePart.TheVariants.{Nothing, Opened};
ghost use Rattle.input_escapes.specs.declared.open_escape.Found.TheVariants.{Asks, Escape};
ghost use Rattle.input_escapes.specs.declared.open_escape.Found.TheVariants.{Measures, Motion};
ghost use Rattle.input_escapes.specs.declared.open_escape.Found.TheVariants.{Unit as GivesUnit};
ghost use Rattle.input_escapes.specs.declared.open_escape.Remark.TheVariants.{BackwardMotion};
ghost use Rattle.input_escapes.specs.declared.open_escape.Remark.TheVariants.{BadNumber};
ghost use Rattle.input_escapes.specs.declared.open_escape.Surroundings.{Surroundings};
ghost use Rattle.input_escapes.specs.declared.open_escape.Surroundings.TheVariants.{Text as InText};
ghost use Rattle.roff_num.specs.declared.direction.Direction.{Direction};

/// The escapes of a register, read byte by byte in text, in arguments or in copy mode, find its
/// name and its step and nothing else: `\nx` and `\n(xx`, with a sign behind the `n` or without. So
/// it is where nothing is half read, and also within names, if fewer than may be; they stay half
/// read.
pub fn register_escapes()
    ensures short { (base : Surroundings) (names : List OpenEscape) (step : Option Direction)
        (x : ℕ)
        → AreNames names → length names < most_names → is_special x ≡ false
        → reads_through base names (short_escape step x)
        ≡ (Asks (Register step) (Some (x ∷ [])) ∷ [], names) }
    ensures long { (base : Surroundings) (names : List OpenEscape) (step : Option Direction)
        (x y : ℕ)
        → AreNames names → length names < most_names
        → (x == backslash) ≡ false → (y == backslash) ≡ false
        → reads_through base names (long_escape step x y)
        ≡ (Asks (Register step) (Some (x ∷ y ∷ [])) ∷ [], names) }
{}

/// The escapes of a string, `\*x` and `\*(xx`, and of an argument, `\$x`, read byte by byte, find
/// its name and nothing else: where nothing is half read, and also within names, if fewer than may
/// be; they stay half read.
pub fn text_escapes()
    ensures short { (base : Surroundings) (names : List OpenEscape) (x : ℕ)
        → AreNames names → length names < most_names
        → (x == backslash) ≡ false → (x == 40) ≡ false
        → reads_through base names (string_escape (x ∷ []))
        ≡ (Asks Text (Some (x ∷ [])) ∷ [], names) }
    ensures long { (base : Surroundings) (names : List OpenEscape) (x y : ℕ)
        → AreNames names → length names < most_names
        → (x == backslash) ≡ false → (y == backslash) ≡ false
        → reads_through base names (string_escape (40 ∷ x ∷ y ∷ []))
        ≡ (Asks Text (Some (x ∷ y ∷ [])) ∷ [], names) }
    ensures argument { (base : Surroundings) (names : List OpenEscape) (x : ℕ)
        → AreNames names → length names < most_names → (x == backslash) ≡ false
        → reads_through base names (argument_escape x)
        ≡ (Asks Argument (Some (x ∷ [])) ∷ [], names) }
{}

/// A character's escape in text finds its two bytes.
pub fn character_escapes()
    ensures { (place : ℤ) (x y : ℕ) → (x == backslash) ≡ false → (y == backslash) ≡ false
        → reads_through (InText place) [] (backslash ∷ 40 ∷ x ∷ y ∷ [])
        ≡ (Asks Character (Some (x ∷ y ∷ [])) ∷ [], []) }
{}

/// A comment finds nothing, whatever stands in it, and is half read up to what ends it; in text, in
/// arguments, in copy mode and within names.
pub fn comments()
    ensures { (base : Surroundings) (names : List OpenEscape) (bytes : List ℕ) → AreNames names
        → reads_through base names (backslash ∷ quote ∷ bytes) ≡ ([], Comment ∷ names) }
{}

/// Eight names are read within each other, and no ninth: where seven are half read an escape that
/// copy mode reads begins an eighth, where eight are it gives nothing. So `\n(` up to eight times
/// begins as many names. Whatever is read, and however it ends, each thing that is half read stands
/// where it may: no more names are half read, no backslash, comment or size but on top, and what is
/// read only in text stands only there. So they are few.
pub fn nesting()
    ensures begun { (base : Surroundings) (names : List OpenEscape) (b : ℕ) (purpose : NameUse)
        → AreNames names → length names < most_names
        → escape_of b ≡ BeginsName purpose → is_copied purpose ≡ true
        → reads_through base names (backslash ∷ b ∷ []) ≡ ([], Name purpose Nothing ∷ names) }
    ensures no_more { (base : Surroundings) (names : List OpenEscape) (b : ℕ) (purpose : NameUse)
        → AreNames names → length names ≡ most_names
        → escape_of b ≡ BeginsName purpose → is_copied purpose ≡ true
        → reads_through base names (backslash ∷ b ∷ []) ≡ ([], names) }
    ensures opened { (base : Surroundings) (k : ℕ) → k ≤ most_names
        → reads_through base [] (openings k)
        ≡ ([], replicate k (Name (Register None) Opened)) }
    ensures always { (base : Surroundings) (half : List OpenEscape) (bytes : List ℕ) → IsNested half
        → IsNested (reads_through base half bytes).1 }
    ensures ended { (base : Surroundings) (half : List OpenEscape) → IsNested half
        → IsNested (reading_ended base half).1 }
    ensures few { (half : List OpenEscape) → IsNested half → length half ≤ 28 }
{}

/// In copy mode and in arguments a text without interpolations and comments is changed as `copied`
/// says, and nothing of it is read otherwise. So a text with each of its backslashes written twice
/// is copied to itself, byte by byte, and with each written four times it is there behind two
/// copies.
pub fn copying()
    ensures read { (base : Surroundings) (text : List ℕ)
        → reads_text base ≡ false → is_only_copied text ≡ true
        → FindsBytes (reads_to_end base text) (copied text) }
    ensures doubled { (text : List ℕ) → copied (doubled text) ≡ text }
    ensures again { (text : List ℕ) → copied (copied (doubled (doubled text))) ≡ text }
    ensures doubled_read { (base : Surroundings) (text : List ℕ) → reads_text base ≡ false
        → reads_through base [] (doubled text)
        ≡ (map (λ b. GivesUnit (Byte b)) text, []) }
{}

/// `\w'text'` measures a text of glyphs: 24 basic units for each column, up to what a register may
/// hold; in text and in arguments.
pub fn widths()
    ensures { (base : Surroundings) (delimiter : ℕ) (text : List ℕ)
        → reads_widths base ≡ true → is_between delimiter text ≡ true
        → reads_through base [] (text_escape 119 delimiter text)
        ≡ (Measures (min (24 * columns_in text) most_width) ∷ [], []) }
{}

/// `\h'text'` moves by the number that its text is, in columns. One below 0 is none, and is told,
/// and so is one that isn't a number. `|` measures from the place on the line.
#[tactic(auto, unfolding(roff_num::proofs::OnLiterals::numbers_on_literals))]
pub fn motions()
    ensures read { (place : ℤ) (delimiter : ℕ) (text : List ℕ) → is_between delimiter text ≡ true
        → reads_through (InText place) [] (text_escape 104 delimiter text)
        ≡ (Motion (motion_of place text).columns (motion_of place text).remark ∷ [], []) }
    ensures columns { motion_of (pos 0) (codes "7") ≡ columns_of 7 }
    ensures inches { motion_of (pos 0) (codes "1i-2") ≡ columns_of 8 }
    ensures rounded { motion_of (pos 0) (codes "37u") ≡ columns_of 2 }
    ensures backward { motion_of (pos 0) (codes "-1") ≡ remarked BackwardMotion }
    ensures no_number { motion_of (pos 0) (codes "x") ≡ remarked BadNumber }
    ensures to_a_place { motion_of (pos 48) (codes "|3") ≡ columns_of 1 }
    ensures behind_a_place { motion_of (pos 96) (codes "|3") ≡ remarked BackwardMotion }
{}

/// An escape that is left out is found with nothing of the text between its delimiters.
pub fn left_out_texts()
    ensures { (place : ℤ) (b kind delimiter : ℕ) (text : List ℕ)
        → escape_of b ≡ BeginsText (LeftOutText kind) → is_between delimiter text ≡ true
        → reads_through (InText place) [] (text_escape b delimiter text) ≡ (Escape kind ∷ [], []) }
{}

/// A condition of two texts is whether they are the same bytes, and behind a `!` whether they
/// aren't. `o` and `e` ask for odd and even pages, `t` is never so and `n` always, and behind a `!`
/// the other way round. Blanks before a condition say nothing.
pub fn conditions()
    ensures same { (delimiter : ℕ) (first second : List ℕ) → delimits_texts delimiter ≡ true
        → is_between delimiter first ≡ true → is_between delimiter second ≡ true
        → asked (two_texts delimiter first second)
        ≡ decided (Is (bytes_eq first second)) (first ++ second) }
    ensures other { (delimiter : ℕ) (first second : List ℕ) → delimits_texts delimiter ≡ true
        → is_between delimiter first ≡ true → is_between delimiter second ≡ true
        → asked (33 ∷ two_texts delimiter first second)
        ≡ decided (Is (not (bytes_eq first second))) (first ++ second) }
    ensures odd { asked (codes "o") ≡ decided (OnPages true) [] }
    ensures not_odd { asked (codes "!o") ≡ decided (OnPages false) [] }
    ensures even { asked (codes "e") ≡ decided (OnPages false) [] }
    ensures not_even { asked (codes "!e") ≡ decided (OnPages true) [] }
    ensures never { asked (codes "t") ≡ decided (Is false) [] }
    ensures not_never { asked (codes "!t") ≡ decided (Is true) [] }
    ensures always { asked (codes "n") ≡ decided (Is true) [] }
    ensures not_always { asked (codes "!n") ≡ decided (Is false) [] }
    ensures blanks { (bytes : List ℕ) → asked (blank ∷ bytes) ≡ asked bytes }
{}
