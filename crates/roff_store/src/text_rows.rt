//! Worked rows of strings, macros and diversions, as contracts of functions that do nothing.

ghost use Rattle.std.specs.Prelude.{◌≡◌, true, false, [], ◌∷◌, codes, Some, None, Ok, Err};
ghost use Rattle.roff_num.specs.declared.limit.Limit.TheVariants.{Names, Store};
ghost use Rattle.roff_store.specs.Texts.{Body, Request, kept, live, used};
ghost use Rattle.roff_store.specs.TextCalls.{Set, Append, Remove, Rename, Open, PushOpen, Enter};
ghost use Rattle.roff_store.specs.TextCalls.{DropOpen, Lease, Take, Release, answered};
ghost use Rattle.roff_store.specs.TextRows.{leases_after, names_after, open_after, sets};
ghost use Rattle.roff_store.specs.TextRows.{store_after};

/// What setting, appending, removing and renaming give.
pub fn name_rows()
    ensures set { names_after 9 2 (sets (codes "x") (codes "abc") ∷ [])
        ≡ (codes "x", Body (codes "abc")) ∷ [] }
    ensures set_again { names_after 9 2 (sets (codes "x") (codes "abc") ∷ sets (codes "y") []
        ∷ sets (codes "x") (codes "d") ∷ [])
        ≡ (codes "x", Body (codes "d")) ∷ (codes "y", Body []) ∷ [] }
    ensures appended { names_after 9 2 (sets (codes "x") (codes "abc")
        ∷ Append (codes "x") (codes "d") ∷ [])
        ≡ (codes "x", Body (codes "abcd")) ∷ [] }
    ensures appended_to_none { names_after 9 2 (Append (codes "x") (codes "d") ∷ [])
        ≡ (codes "x", Body (codes "d")) ∷ [] }
    ensures appended_to_request { names_after 9 2 (Set (codes "br") (Request 3)
        ∷ Append (codes "br") (codes "d") ∷ [])
        ≡ (codes "br", Body (codes "d")) ∷ [] }
    ensures removed { names_after 9 2 (sets (codes "x") (codes "abc") ∷ sets (codes "y") (codes "d")
        ∷ Remove (codes "x") ∷ [])
        ≡ (codes "y", Body (codes "d")) ∷ [] }
    ensures renamed { names_after 9 2 (sets (codes "x") (codes "abc")
        ∷ Rename (codes "x") (codes "y") ∷ [])
        ≡ (codes "y", Body (codes "abc")) ∷ [] }
    ensures renamed_onto_another { names_after 9 2 (sets (codes "x") (codes "abc")
        ∷ sets (codes "y") (codes "d") ∷ Rename (codes "x") (codes "y") ∷ [])
        ≡ (codes "y", Body (codes "abc")) ∷ [] }
    ensures renamed_onto_itself { names_after 9 2 (sets (codes "x") (codes "abc")
        ∷ Rename (codes "x") (codes "x") ∷ [])
        ≡ (codes "x", Body (codes "abc")) ∷ [] }
    ensures nothing_renamed { names_after 9 2 (sets (codes "x") (codes "abc")
        ∷ Rename (codes "y") (codes "x") ∷ [])
        ≡ (codes "x", Body (codes "abc")) ∷ [] }
{}

/// What a text in the making gives.
pub fn open_rows()
    ensures pushed { open_after 9 2 (Open ∷ PushOpen 0 (codes "ab") ∷ Open ∷ PushOpen 1 (codes "c")
        ∷ PushOpen 0 (codes "d") ∷ [])
        ≡ codes "abd" ∷ codes "c" ∷ [] }
    ensures entered { names_after 9 2 (sets (codes "x") (codes "old") ∷ Open
        ∷ PushOpen 0 (codes "new") ∷ Enter 0 (codes "x") false ∷ [])
        ≡ (codes "x", Body (codes "new")) ∷ [] }
    ensures entered_behind { names_after 9 2 (sets (codes "x") (codes "old") ∷ Open
        ∷ PushOpen 0 (codes "new") ∷ Enter 0 (codes "x") true ∷ [])
        ≡ (codes "x", Body (codes "oldnew")) ∷ [] }
    ensures open_no_more { open_after 9 2 (Open ∷ Open ∷ PushOpen 0 (codes "ab")
        ∷ Enter 1 (codes "x") false ∷ [])
        ≡ codes "ab" ∷ [] }
    ensures removal_leaves_it { open_after 9 2 (sets (codes "x") (codes "old") ∷ Open
        ∷ PushOpen 0 (codes "new") ∷ Remove (codes "x") ∷ [])
        ≡ codes "new" ∷ [] }
    ensures dropped { open_after 9 2 (Open ∷ PushOpen 0 (codes "ab") ∷ DropOpen 0 ∷ []) ≡ [] }
{}

/// What a lease gives.
pub fn lease_rows()
    ensures leased { leases_after 9 2 (sets (codes "x") (codes "abc") ∷ Lease (codes "x") 0 ∷ [])
        ≡ Some (codes "abc") ∷ [] }
    ensures taken { leases_after 9 2 (sets (codes "x") (codes "abc") ∷ Lease (codes "x") 0
        ∷ Take 0 1 ∷ [])
        ≡ Some (codes "bc") ∷ [] }
    ensures at_its_end { leases_after 9 2 (sets (codes "x") (codes "a") ∷ Lease (codes "x") 0
        ∷ Take 0 1 ∷ Take 0 1 ∷ [])
        ≡ Some [] ∷ [] }
    ensures redefined { leases_after 9 2 (sets (codes "x") (codes "abc") ∷ Lease (codes "x") 0
        ∷ Take 0 1 ∷ sets (codes "x") (codes "new") ∷ Take 0 1 ∷ [])
        ≡ Some (codes "c") ∷ [] }
    ensures removed { leases_after 9 2 (sets (codes "x") (codes "abc") ∷ Lease (codes "x") 0
        ∷ Remove (codes "x") ∷ Take 0 1 ∷ [])
        ≡ Some (codes "bc") ∷ [] }
    ensures own_end { leases_after 9 2 (sets (codes "x") (codes "ab") ∷ Lease (codes "x") 0
        ∷ Append (codes "x") (codes "c") ∷ Lease (codes "x") 1 ∷ Take 0 1 ∷ [])
        ≡ Some (codes "b") ∷ Some (codes "abc") ∷ [] }
    ensures released { leases_after 9 2 (sets (codes "x") (codes "ab") ∷ Lease (codes "x") 0
        ∷ Lease (codes "x") 1 ∷ Release 0 ∷ [])
        ≡ None ∷ Some (codes "ab") ∷ [] }
    ensures number_again { leases_after 9 2 (sets (codes "x") (codes "ab") ∷ Lease (codes "x") 0
        ∷ Release 0 ∷ Lease (codes "x") 0 ∷ [])
        ≡ Some (codes "ab") ∷ [] }
{}

/// What counts, and what is refused.
pub fn count_rows()
    ensures bodies_and_open { used (store_after 9 2 (sets (codes "x") (codes "abc") ∷ Open
        ∷ PushOpen 0 (codes "de") ∷ [])) ≡ 5 }
    ensures not_what_leases_give { used (store_after 9 2 (sets (codes "x") (codes "abc")
        ∷ Lease (codes "x") 0 ∷ Remove (codes "x") ∷ [])) ≡ 0 }
    ensures given { kept (store_after 9 2 (sets (codes "x") (codes "abc") ∷ Lease (codes "x") 0
        ∷ Lease (codes "x") 1 ∷ Take 1 1 ∷ [])) ≡ 5 }
    ensures living { live (store_after 9 2 (sets (codes "x") (codes "abc") ∷ Lease (codes "x") 0
        ∷ Lease (codes "x") 1 ∷ Release 0 ∷ [])) ≡ 1 }
    ensures bytes_met { answered (sets (codes "x") (codes "abc")) (store_after 3 1 []) ≡ Ok tt }
    ensures bytes_passed { answered (sets (codes "x") (codes "abcd")) (store_after 3 1 [])
        ≡ Err Store }
    ensures old_body_makes_room { answered (sets (codes "x") (codes "new"))
        (store_after 3 1 (sets (codes "x") (codes "old") ∷ [])) ≡ Ok tt }
    ensures names_passed { answered (sets (codes "y") [])
        (store_after 3 1 (sets (codes "x") (codes "old") ∷ [])) ≡ Err Names }
    ensures bytes_first { answered (sets (codes "y") (codes "a"))
        (store_after 3 1 (sets (codes "x") (codes "old") ∷ [])) ≡ Err Store }
    ensures append_passed { answered (Append (codes "x") (codes "a"))
        (store_after 3 1 (sets (codes "x") (codes "old") ∷ [])) ≡ Err Store }
    ensures entering_takes_no_bytes { answered (Enter 0 (codes "x") true)
        (store_after 6 1 (sets (codes "x") (codes "old") ∷ Open ∷ PushOpen 0 (codes "new") ∷ []))
        ≡ Ok tt }
    ensures refused { names_after 3 1 (sets (codes "x") (codes "old")
        ∷ Append (codes "x") (codes "a") ∷ sets (codes "y") [] ∷ [])
        ≡ (codes "x", Body (codes "old")) ∷ [] }
{}
