//! Facts about the definitions alone, as contracts of functions that do nothing.

ghost use Rattle.std.specs.Prelude.{◌≡◌, ℕ, ◌+◌, ◌<◌, ◌≤◌, ◌^◌, length, decimal, List, Some, None};
ghost use Rattle.std.specs.Prelude.{[], codes, pos, negsuc};
ghost use Rattle.roff_num.specs.Clauses.{AllDigits, digits_value, Format, Decimal, RomanLower};
ghost use Rattle.roff_num.specs.Clauses.{RomanUpper, AlphaLower, AlphaUpper, decimal_field};
ghost use Rattle.roff_num.specs.Clauses.{register_text, format_of, IsWritten, roman, roman_value};
ghost use Rattle.roff_num.specs.Clauses.{ComesBefore, IsOverLetters, place, word, value_at};
ghost use Rattle.roff_num.specs.Clauses.{IsLeftFold, Missing, Range, ZeroDivisor, Units};

/// What the definitions give for some values in letters.
#[tactic(auto, unfolding(crate::proofs::OnLiterals::numbers_on_literals))]
pub fn alphabetic_rows()
    ensures zero { register_text AlphaLower (pos 0) ≡ codes "0" }
    ensures first { register_text AlphaLower (pos 1) ≡ codes "a" }
    ensures last_of_one { register_text AlphaLower (pos 26) ≡ codes "z" }
    ensures first_of_two { register_text AlphaLower (pos 27) ≡ codes "aa" }
    ensures second_of_two { register_text AlphaLower (pos 28) ≡ codes "ab" }
    ensures last_of_two { register_text AlphaLower (pos 702) ≡ codes "zz" }
    ensures first_of_three { register_text AlphaUpper (pos 703) ≡ codes "AAA" }
    ensures negative { register_text AlphaUpper (negsuc 27) ≡ codes "-AB" }
    ensures greatest { place (codes "fxshrxx") ≡ 2147483648 }
{}

/// What the definitions give for some values in Roman numbers.
#[tactic(auto, unfolding(crate::proofs::OnLiterals::numbers_on_literals))]
pub fn roman_rows()
    ensures zero { register_text RomanLower (pos 0) ≡ codes "0" }
    ensures four { register_text RomanLower (pos 4) ≡ codes "iv" }
    ensures year { register_text RomanUpper (pos 1994) ≡ codes "MCMXCIV" }
    ensures last { register_text RomanLower (pos 3999) ≡ codes "mmmcmxcix" }
    ensures past_the_last { register_text RomanLower (pos 4000) ≡ codes "4000" }
    ensures negative { register_text RomanLower (negsuc 4) ≡ codes "-v" }
    ensures negative_past_the_last { register_text RomanUpper (negsuc 2147483647)
        ≡ codes "-2147483648" }
{}

/// What the definitions give for some values in decimal fields.
#[tactic(auto, unfolding(crate::proofs::OnLiterals::numbers_on_literals))]
pub fn decimal_rows()
    ensures plain { register_text (Decimal 1) (pos 2147483647) ≡ codes "2147483647" }
    ensures zeros { register_text (Decimal 3) (pos 7) ≡ codes "007" }
    ensures negative { register_text (Decimal 3) (negsuc 4) ≡ codes "-005" }
    ensures longer_than_the_field { register_text (Decimal 2) (pos 1234) ≡ codes "1234" }
    ensures least { register_text (Decimal 1) (negsuc 2147483647) ≡ codes "-2147483648" }
    ensures widest { register_text (Decimal 200) (pos 5)
        ≡ codes "00000000000000000000000000000005" }
{}

/// What the definition gives for some texts of formats.
pub fn format_rows()
    ensures empty { format_of [] ≡ None }
    ensures plain { format_of (codes "1") ≡ Some (Decimal 1) }
    ensures three_digits { format_of (codes "001") ≡ Some (Decimal 3) }
    ensures two_zeros { format_of (codes "00") ≡ Some (Decimal 2) }
    ensures most_digits { format_of (codes "00000000000000000000000000000001") ≡ Some (Decimal 32) }
    ensures too_many_digits { format_of (codes "000000000000000000000000000000001") ≡ None }
    ensures roman { format_of (codes "i") ≡ Some RomanLower }
    ensures roman_capitals { format_of (codes "I") ≡ Some RomanUpper }
    ensures alphabetic { format_of (codes "a") ≡ Some AlphaLower }
    ensures alphabetic_capitals { format_of (codes "A") ≡ Some AlphaUpper }
    ensures other_letter { format_of (codes "x") ≡ None }
    ensures two_letters { format_of (codes "ii") ≡ None }
    ensures digit_and_letter { format_of (codes "1a") ≡ None }
    ensures sign { format_of (codes "+1") ≡ None }
{}

/// What the format `a` means: the words over `a` to `z` are listed by length and then by alphabet.
/// Each is there, at its place, an earlier one comes before a later one, and no word stands between
/// two that follow one another.
pub fn alphabetic_listing()
    ensures empty_before_the_first { word 0 ≡ [] }
    ensures of_letters { (n : ℕ) → IsOverLetters (word n) }
    ensures in_order { (m n : ℕ) → m < n → ComesBefore (word m) (word n) }
    ensures each_is_listed { (w : List ℕ) → IsOverLetters w → word (place w) ≡ w }
    ensures nothing_between { (n : ℕ) (w : List ℕ)
        → IsOverLetters w → ComesBefore (word n) w → ¬ ComesBefore w (word (n + 1)) }
    ensures each_at_one_place { (n : ℕ) → place (word n) ≡ n }
{}

/// What the format `i` means: a Roman number counts the number that it writes.
pub fn roman_numbers()
    ensures { (n : ℕ) → n ≤ 3999 → roman_value (roman n) ≡ n }
{}

/// What a decimal field means: digits that count the number, as many as the field has, or more if
/// the number has more.
pub fn decimal_fields()
    ensures of_digits { (width n : ℕ) → n < 2 ^ 64 → AllDigits 10 (decimal_field width n) }
    ensures value { (width n : ℕ) → n < 2 ^ 64 → digits_value 10 (decimal_field width n) ≡ n }
    ensures wide_enough { (width n : ℕ) → width ≤ length (decimal_field width n) }
    ensures no_wider { (width n : ℕ)
        → width < length (decimal_field width n) → decimal_field width n ≡ decimal n }
{}

/// Which texts are formats, and which format each is.
pub fn formats()
    ensures read { (text : List ℕ) (format : Format)
        → format_of text ≡ Some format → IsWritten format text }
    ensures written { (text : List ℕ) (format : Format)
        → IsWritten format text → format_of text ≡ Some format }
{}

/// The value of an expression is the left fold over its operands.
pub fn left_fold()
    ensures { IsLeftFold }
{}

/// What the definitions give on worked numbers.
#[tactic(auto, unfolding(crate::proofs::OnLiterals::numbers_on_literals))]
pub fn number_rows()
    ensures no_precedence { value_at (codes "3+4*2") 0 Units None ≡ Ok (record { 0 = pos 14 }, 5) }
    ensures quotient_toward_zero { value_at (codes "(0-7)/2") 0 Units None
        ≡ Ok (record { 0 = negsuc 2 }, 7) }
    ensures remainder_toward_zero { value_at (codes "(0-7)%2") 0 Units None
        ≡ Ok (record { 0 = negsuc 0 }, 7) }
    ensures inches { value_at (codes "1.5i") 0 Units None ≡ Ok (record { 0 = pos 360 }, 4) }
    ensures centimetres { value_at (codes "2c") 0 Units None ≡ Ok (record { 0 = pos 188 }, 2) }
    ensures sign_of_operand { value_at (codes "-7+2") 0 Units None
        ≡ Ok (record { 0 = negsuc 4 }, 4) }
    ensures distance { value_at (codes "1+|2*3 x") 0 Units (Some (pos 5))
        ≡ Ok (record { 0 = negsuc 5 }, 6) }
    ensures zero_divisor { value_at (codes "1/0+") 0 Units None ≡ Err ZeroDivisor }
    ensures operand_missing { value_at (codes "1+") 0 Units None ≡ Err Missing }
    ensures not_closed { value_at (codes "(1") 0 Units None ≡ Err Missing }
    ensures least { value_at (codes "-2147483648") 0 Units None
        ≡ Ok (record { 0 = negsuc 2147483647 }, 11) }
    ensures too_great { value_at (codes "2147483648") 0 Units None ≡ Err Range }
{}
