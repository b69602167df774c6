//! Facts about the definitions of strings, macros and diversions, as contracts of functions that do
//! nothing.

ghost use Rattle.std.specs.Prelude.{◌≡◌, ℕ, List, true, false, Ok, Err};
ghost use Rattle.roff_num.specs.declared.limit.Limit.{Limit};
ghost use Rattle.roff_store.specs.Texts.{Texts};
ghost use Rattle.roff_store.specs.Named.{entry_of};
ghost use Rattle.roff_store.specs.TextCalls.{Call, after, after_all, answered};
ghost use Rattle.roff_store.specs.TextLaws.{IsCounted, entry_after, is_of_lease};

/// Calls on names and on texts in the making leave the leases alone, and calls on leases those: a
/// body is read on as it was, whatever becomes of its name.
pub fn apart()
    ensures leases { (call : Call) (t : Texts) → is_of_lease call ≡ false
        → (after call t).leases ≡ t.leases }
    ensures names { (call : Call) (t : Texts) → is_of_lease call ≡ true
        → (after call t).names ≡ t.names }
    ensures open_texts { (call : Call) (t : Texts) → is_of_lease call ≡ true
        → (after call t).open_texts ≡ t.open_texts }
{}

/// A call that is refused changes nothing.
pub fn refusals()
    ensures { (call : Call) (t : Texts) (limit : Limit) → answered call t ≡ Err limit
        → after call t ≡ t }
{}

/// After every list of calls no name stands twice, and neither the names nor the bytes of bodies
/// and texts in the making pass their limits.
pub fn counted()
    ensures { (calls : List Call) (t : Texts) → IsCounted t → IsCounted (after_all calls t) }
{}

/// A store is a finite map: behind a call that isn't refused each name stands for what the call
/// lets it stand for.
pub fn finite_map()
    ensures { (call : Call) (t : Texts) (name : List ℕ) → answered call t ≡ Ok tt
        → entry_of name (after call t).names.entries ≡ entry_after call name t }
{}

/// No call changes a limit.
pub fn limits()
    ensures names { (call : Call) (t : Texts) → (after call t).names.cap ≡ t.names.cap }
    ensures bytes { (call : Call) (t : Texts) → (after call t).cap_bytes ≡ t.cap_bytes }
    ensures kept { (call : Call) (t : Texts) → (after call t).cap_kept ≡ t.cap_kept }
    ensures open_texts { (call : Call) (t : Texts) → (after call t).cap_open ≡ t.cap_open }
    ensures leases { (call : Call) (t : Texts) → (after call t).cap_leases ≡ t.cap_leases }
{}
