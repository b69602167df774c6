//! Facts about the definitions alone, as contracts of functions that do nothing.

ghost use Rattle.std.specs.Prelude.{◌≡◌, ℕ, ◌+◌, ◌≤◌, List, [], ◌∷◌, length, codes, pos, negsuc, ℤ};
ghost use Rattle.std.specs.Prelude.{Some, None, Ok, Err};
ghost use Rattle.roff_num.specs.declared.format.Format.{Format};
ghost use Rattle.roff_num.specs.declared.format.Format.TheVariants.{Decimal, RomanLower};
ghost use Rattle.roff_num.specs.declared.format.Format.TheVariants.{AlphaUpper};
ghost use Rattle.roff_num.specs.declared.limit.Limit.TheVariants.{Names};
ghost use Rattle.roff_num.specs.declared.num.NumFault.TheVariants.{Range};
ghost use Rattle.roff_num.specs.Ranges.{number};
ghost use Rattle.roff_num.specs.declared.direction.Direction.TheVariants.{Up, Down};
ghost use Rattle.roff_store.specs.declared.register.Register.{Register};
ghost use Rattle.roff_store.specs.Named.{Table, EachOnce, admitted, entry_of};
ghost use Rattle.roff_store.specs.Registers.{Call, SetFormat, Step, Remove, after, after_all};
ghost use Rattle.roff_store.specs.Registers.{stepped, unset_register};
ghost use Rattle.roff_store.specs.Laws.{after_calls, no_registers, register};
ghost use Rattle.roff_store.specs.Laws.{register_after_all, sets, table_after};

/// What setting a register's value, increment and format gives.
pub fn setting_rows()
    ensures value { after_calls 1 (sets (codes "x") (pos 5) (pos 2) ∷ [])
        ≡ (codes "x", register (pos 5) (Decimal 1) (pos 2)) ∷ [] }
    ensures new_by_format { after_calls 1 (SetFormat (codes "x") AlphaUpper ∷ [])
        ≡ (codes "x", register (pos 0) AlphaUpper (pos 0)) ∷ [] }
    ensures format_stays { after_calls 1 (SetFormat (codes "x") RomanLower
        ∷ sets (codes "x") (pos 5) (pos 2) ∷ [])
        ≡ (codes "x", register (pos 5) RomanLower (pos 2)) ∷ [] }
    ensures value_and_increment_stay { after_calls 1 (sets (codes "x") (pos 5) (pos 2)
        ∷ SetFormat (codes "x") RomanLower ∷ [])
        ≡ (codes "x", register (pos 5) RomanLower (pos 2)) ∷ [] }
    ensures increment_goes { after_calls 1 (sets (codes "x") (pos 5) (pos 2)
        ∷ sets (codes "x") (pos 6) (pos 0) ∷ [])
        ≡ (codes "x", register (pos 6) (Decimal 1) (pos 0)) ∷ [] }
    ensures others_stay { after_calls 2 (sets (codes "x") (pos 5) (pos 2)
        ∷ sets (codes "y") (negsuc 0) (pos 1) ∷ sets (codes "x") (pos 6) (pos 3) ∷ [])
        ≡ (codes "x", register (pos 6) (Decimal 1) (pos 3))
        ∷ (codes "y", register (negsuc 0) (Decimal 1) (pos 1)) ∷ [] }
{}

/// What a step gives.
pub fn step_rows()
    ensures up { stepped Up (register (pos 5) (Decimal 1) (pos 2)) ≡ Ok (number (pos 7)) }
    ensures down { stepped Down (register (pos 5) (Decimal 1) (pos 2)) ≡ Ok (number (pos 3)) }
    ensures below_zero { stepped Up (register (pos 1) RomanLower (negsuc 2))
        ≡ Ok (number (negsuc 1)) }
    ensures to_the_greatest { stepped Up (register (pos 2147483646) (Decimal 1) (pos 1))
        ≡ Ok (number (pos 2147483647)) }
    ensures past_the_greatest { stepped Up (register (pos 2147483647) (Decimal 1) (pos 1))
        ≡ Err Range }
    ensures to_the_least { stepped Down (register (negsuc 2147483646) (Decimal 1) (pos 1))
        ≡ Ok (number (negsuc 2147483647)) }
    ensures past_the_least { stepped Down (register (negsuc 2147483647) (Decimal 1) (pos 1))
        ≡ Err Range }
    ensures not_a_register { stepped Up unset_register ≡ Ok (number (pos 0)) }
    ensures value_steps { after_calls 1 (sets (codes "x") (pos 5) (pos 2)
        ∷ Step (codes "x") Up ∷ Step (codes "x") Up ∷ Step (codes "x") Down ∷ [])
        ≡ (codes "x", register (pos 7) (Decimal 1) (pos 2)) ∷ [] }
    ensures value_stays_out_of_range { after_calls 1 (sets (codes "x") (pos 2147483647) (pos 1)
        ∷ Step (codes "x") Up ∷ [])
        ≡ (codes "x", register (pos 2147483647) (Decimal 1) (pos 1)) ∷ [] }
    ensures none_is_made { after_calls 1 (Step (codes "x") Up ∷ []) ≡ [] }
{}

/// What removing a register gives.
pub fn removal_rows()
    ensures gone { after_calls 2 (sets (codes "x") (pos 5) (pos 2)
        ∷ sets (codes "y") (pos 6) (pos 0) ∷ Remove (codes "x") ∷ [])
        ≡ (codes "y", register (pos 6) (Decimal 1) (pos 0)) ∷ [] }
    ensures not_there { after_calls 1 (sets (codes "x") (pos 5) (pos 2) ∷ Remove (codes "y") ∷ [])
        ≡ (codes "x", register (pos 5) (Decimal 1) (pos 2)) ∷ [] }
    ensures format_goes_too { after_calls 1 (SetFormat (codes "x") RomanLower ∷ Remove (codes "x")
        ∷ sets (codes "x") (pos 1) (pos 0) ∷ [])
        ≡ (codes "x", register (pos 1) (Decimal 1) (pos 0)) ∷ [] }
    ensures counts_no_more { after_calls 1 (sets (codes "x") (pos 5) (pos 2) ∷ Remove (codes "x")
        ∷ sets (codes "y") (pos 6) (pos 0) ∷ [])
        ≡ (codes "y", register (pos 6) (Decimal 1) (pos 0)) ∷ [] }
{}

/// What a full table gives.
pub fn limit_rows()
    ensures none_allowed { admitted (codes "x") (no_registers 0) ≡ Err Names }
    ensures one_allowed { admitted (codes "x") (no_registers 1) ≡ Ok tt }
    ensures past_one { admitted (codes "y")
        (table_after 1 (sets (codes "x") (pos 5) (pos 2) ∷ [])) ≡ Err Names }
    ensures known_name { admitted (codes "x")
        (table_after 1 (sets (codes "x") (pos 5) (pos 2) ∷ [])) ≡ Ok tt }
    ensures second_of_two { admitted (codes "y")
        (table_after 2 (sets (codes "x") (pos 5) (pos 2) ∷ [])) ≡ Ok tt }
    ensures value_refused { after_calls 1 (sets (codes "x") (pos 5) (pos 2)
        ∷ sets (codes "y") (pos 6) (pos 0) ∷ [])
        ≡ (codes "x", register (pos 5) (Decimal 1) (pos 2)) ∷ [] }
    ensures format_refused { after_calls 1 (sets (codes "x") (pos 5) (pos 2)
        ∷ SetFormat (codes "y") RomanLower ∷ [])
        ≡ (codes "x", register (pos 5) (Decimal 1) (pos 2)) ∷ [] }
{}

/// Names that begin alike are apart.
pub fn name_rows()
    ensures first { entry_of (codes "x") (after_calls 3 (sets (codes "xyz") (pos 3) (pos 0)
        ∷ sets (codes "xy") (pos 2) (pos 0) ∷ sets (codes "x") (pos 1) (pos 0) ∷ []))
        ≡ Some (register (pos 1) (Decimal 1) (pos 0)) }
    ensures longer { entry_of (codes "xyz") (after_calls 3 (sets (codes "x") (pos 1) (pos 0)
        ∷ sets (codes "xy") (pos 2) (pos 0) ∷ sets (codes "xyz") (pos 3) (pos 0) ∷ []))
        ≡ Some (register (pos 3) (Decimal 1) (pos 0)) }
    ensures not_there { entry_of (codes "xyzz")
        (after_calls 1 (sets (codes "xyz") (pos 3) (pos 0) ∷ [])) ≡ None }
{}

/// After calls in turn no name has two registers, and there are no more than the table is for.
pub fn counted()
    ensures once { (cap : ℕ) (calls : List Call) → EachOnce (after_calls cap calls) }
    ensures within { (cap : ℕ) (calls : List Call) → length (after_calls cap calls) ≤ cap }
{}

/// The registers are a finite map: after calls in turn, of which none is refused, the register of
/// each name is what these calls make of the one from before, whatever they make of others.
pub fn finite_map()
    ensures { (t : Table Register) (calls : List Call) (name : List ℕ)
        → length t.entries + length calls ≤ t.cap
        → entry_of name (after_all calls t).entries
        ≡ register_after_all calls name (entry_of name t.entries) }
{}

/// A call that is refused changes nothing.
pub fn refusals()
    ensures value { (t : Table Register) (name : List ℕ) (value increment : ℤ)
        → admitted name t ≡ Err Names
        → after (sets name value increment) t ≡ t }
    ensures format { (t : Table Register) (name : List ℕ) (format : Format)
        → admitted name t ≡ Err Names
        → after (SetFormat name format) t ≡ t }
    ensures only_new { (t : Table Register) (name : List ℕ) → admitted name t ≡ Err Names
        → (entry_of name t.entries ≡ None) × (t.cap ≤ length t.entries) }
{}
