//! Worked rows: what layouts do on lists of happenings, the oldest first.

ghost use Rattle.std.specs.Prelude.{◌≡◌, ◌+◌, [], ◌∷◌, codes, true, false, Some, None, pos};
ghost use Rattle.std.specs.Prelude.{negsuc, List, length};
ghost use Rattle.page_model.specs.Layout.{first_layout};
ghost use Rattle.page_model.specs.declared.layout_event.LayoutEvent.TheVariants.{Begin, Close};
ghost use Rattle.page_model.specs.declared.layout_event.LayoutEvent.TheVariants.{Space, Need};
ghost use Rattle.page_model.specs.declared.layout_event.LayoutEvent.TheVariants.{Eject};
ghost use Rattle.page_model.specs.Happenings.{Happening, Does};
ghost use Rattle.page_model.specs.declared.layout_event.LayoutEvent.TheVariants.{EjectOn};
ghost use Rattle.page_model.specs.declared.layout_event.LayoutEvent.TheVariants.{EjectLast};
ghost use Rattle.page_model.specs.declared.layout_event.LayoutEvent.TheVariants.{Length, Offset};
ghost use Rattle.page_model.specs.declared.layout_event.LayoutEvent.TheVariants.{Plant, NoSpace};
ghost use Rattle.page_model.specs.declared.layout_event.LayoutEvent.TheVariants.{Divert};
ghost use Rattle.page_model.specs.declared.layout_event.LayoutEvent.TheVariants.{EndDivert};
ghost use Rattle.page_model.specs.declared.layout_event.LayoutEvent.TheVariants.{DiversionTrap};
ghost use Rattle.roff_pages.specs.Rows.{behind, begun, written, diverted, sprung, going_on, line};
ghost use Rattle.roff_pages.specs.Rows.{spaced_line, title, footer, header, footer_at, header_at};

/// What is written: a paragraph on a page of three lines; pages with a footer, filled by lines and
/// by spacing, and no page begins behind the last line.
pub fn pages()
    // `.pl 3`, `.ll 10n`: the second line is finished in the closing phase
    ensures filled { written (Does (Length 3) ∷ Does Begin ∷ line (codes "alpha beta")
        ∷ Does Close ∷ line (codes "gamma") ∷ Does EjectLast ∷ []) first_layout
        ≡ codes "alpha beta\ngamma\n\n" }
    // `.pl 4`, `.wh -2v FO`: the footer has a title, and ejects the page
    ensures footers { let foot = title [] (45 ∷ 32 ∷ 1 ∷ 32 ∷ 45 ∷ []) [] 9 in
        written (Does (Length 4) ∷ Does (Plant (footer_at (negsuc 1))) ∷ Does Begin
        ∷ line (codes "a") ∷ line (codes "b") ∷ foot (codes "1") ∷ Does (Eject 1)
        ∷ line (codes "c") ∷ line (codes "d") ∷ foot (codes "2") ∷ Does (Eject 2)
        ∷ Does Close ∷ Does EjectLast ∷ []) first_layout
        ≡ codes "a\nb\n  - 1 -\n\nc\nd\n  - 2 -\n\n" }
    // ten lines are spaced up to the footer alone, and the last eject goes on behind it
    ensures spaced { let foot = title [] (45 ∷ 32 ∷ 1 ∷ 32 ∷ 45 ∷ []) [] 9 in
        written (Does (Length 4) ∷ Does (Plant (footer_at (negsuc 1))) ∷ Does Begin
        ∷ Does (Space 10) ∷ foot (codes "1") ∷ Does (Eject 1) ∷ line (codes "b")
        ∷ Does Close ∷ Does EjectLast ∷ foot (codes "2") ∷ Does (Eject 2) ∷ []) first_layout
        ≡ codes "\n\n  - 1 -\n\nb\n\n  - 2 -\n\n" }
    // a page whose place is 0 writes nothing at the end
    ensures empty { written (Does Begin ∷ Does Close ∷ Does EjectLast ∷ []) first_layout ≡ [] }
    // the offset stands in front of a text, and no blank at its end
    ensures offset { written (Does (Offset 2) ∷ Does Begin ∷ line (codes "a ") ∷ line (codes " ")
        ∷ []) first_layout ≡ codes "  a\n\n" }
{}

/// What springs: the first planted trap where a page begins, one trap of two for one space, each of
/// two traps in turn for an eject, and a diversion's.
pub fn traps()
    // a trap at the page's beginning, and at minus its length
    ensures on_top { sprung (Does (Length 4) ∷ Does (Plant (header_at (pos 0))) ∷ Does Begin ∷ [])
        first_layout ≡ None ∷ None ∷ Some header ∷ [] }
    ensures at_minus_length { sprung (Does (Length 4) ∷ Does (Plant (footer_at (negsuc 3)))
        ∷ Does (Plant (header_at (pos 0))) ∷ Does Begin ∷ []) first_layout
        ≡ None ∷ None ∷ None ∷ Some footer ∷ [] }
    // none at the length
    ensures at_the_length { sprung (Does (Length 2) ∷ Does (Plant (footer_at (pos 2)))
        ∷ Does Begin ∷ Does (Space 2) ∷ []) first_layout ≡ None ∷ None ∷ None ∷ None ∷ [] }
    ensures two_for_one_space { sprung (Does (Plant (header_at (pos 4)))
        ∷ Does (Plant (footer_at (pos 2))) ∷ Does Begin ∷ Does (Space 10) ∷ Does (Space 10) ∷ [])
        first_layout ≡ None ∷ None ∷ None ∷ Some footer ∷ Some header ∷ [] }
    ensures eject_over_two { let all = Does (Length 6) ∷ Does (Plant (header_at (pos 4)))
        ∷ Does (Plant (footer_at (pos 2))) ∷ Does Begin ∷ Does (Eject 1) ∷ Does (EjectOn 1)
        ∷ Does (EjectOn 1) ∷ Does (EjectOn 1) ∷ [] in sprung all first_layout
        ≡ None ∷ None ∷ None ∷ None ∷ Some footer ∷ Some header ∷ None ∷ None ∷ [] }
    ensures eject_goes_on { let all = Does (Length 6) ∷ Does (Plant (header_at (pos 4)))
        ∷ Does (Plant (footer_at (pos 2))) ∷ Does Begin ∷ Does (Eject 1) ∷ Does (EjectOn 1)
        ∷ Does (EjectOn 1) ∷ Does (EjectOn 1) ∷ [] in going_on all first_layout
        ≡ false ∷ false ∷ false ∷ false ∷ true ∷ true ∷ false ∷ false ∷ [] }
    // a line that reaches a trap has no blank lines behind it
    ensures behind_a_line { written (Does (Plant (footer_at (pos 2))) ∷ Does Begin
        ∷ spaced_line (codes "a") 5 ∷ spaced_line (codes "b") 1 ∷ []) first_layout
        ≡ codes "a\n\nb\n\n" }
    ensures in_a_diversion { sprung (Does (Divert header false)
        ∷ Does (DiversionTrap (footer_at (pos 2))) ∷ line (codes "a") ∷ Does (Space 5)
        ∷ Does (Space 5) ∷ []) first_layout ≡ None ∷ None ∷ None ∷ Some footer ∷ None ∷ [] }
{}

/// Where a page ends: one made shorter than its place ends at the next put, also at one of no box,
/// but not at an inhibited one. What goes into a diversion is a line for each box.
pub fn ends()
    ensures shorter { begun (Does Begin ∷ Does (Space 5) ∷ Does (Length 3) ∷ []) ≡ 1 }
    ensures no_box { begun (Does Begin ∷ Does (Space 5) ∷ Does (Length 3)
        ∷ Does (Space 0) ∷ []) ≡ 2 }
    ensures idle_need { begun (Does Begin ∷ Does (Space 5) ∷ Does (Length 3)
        ∷ Does (Need 0) ∷ []) ≡ 2 }
    ensures inhibited { begun (Does Begin ∷ Does (Space 5) ∷ Does (Length 3) ∷ Does (NoSpace true)
        ∷ Does (Space 0) ∷ Does (Eject 1) ∷ []) ≡ 1 }
    ensures closing { (behind (Does Begin ∷ Does Close ∷ Does (Eject 1) ∷ [])
        first_layout).is_over ≡ true }
    ensures diverted { diverted (Does (Divert header false)
        ∷ spaced_line (97 ∷ 1 ∷ 92 ∷ 0 ∷ []) 1 ∷ Does EndDivert ∷ []) first_layout
        ≡ codes "\\&a\\ \\e\\ \n\n" }
    ensures height { (behind (Does (Divert header false) ∷ spaced_line (97 ∷ 1 ∷ 92 ∷ 0 ∷ []) 1
        ∷ Does EndDivert ∷ []) first_layout).height ≡ 2 }
    ensures width { (behind (Does (Divert header false) ∷ spaced_line (97 ∷ 1 ∷ 92 ∷ 0 ∷ []) 1
        ∷ Does EndDivert ∷ []) first_layout).width ≡ 4 }
{}

/// Titles on worked rows: three parts, an empty one in the centre that has its place, and parts
/// that meet.
pub fn titles()
    ensures three { written (title (codes "l") (codes "c") (codes "r") 9 [] ∷ [])
        (behind (Does Begin ∷ []) first_layout) ≡ codes "l   c   r\n" }
    ensures no_centre { written (title (codes "abcd") [] (codes "r") 4 [] ∷ [])
        (behind (Does Begin ∷ []) first_layout) ≡ codes "abcdr\n" }
    ensures centre_has_its_place { written (title (codes "a") [] (codes "wxyz") 4 [] ∷ [])
        (behind (Does Begin ∷ []) first_layout) ≡ codes "a wxyz\n" }
    ensures left_alone { written (title (codes "a") [] [] 9 [] ∷ [])
        (behind (Does Begin ∷ []) first_layout) ≡ codes "a\n" }
    ensures number { written (title (1 ∷ 0 ∷ 1 ∷ []) [] [] 9 (codes "12") ∷ [])
        (behind (Does Begin ∷ []) first_layout) ≡ codes "12 12\n" }
{}
