//! Facts about the definitions alone, as contracts of functions that do nothing.

ghost use Rattle.std.specs.Prelude.{◌≡◌, ℕ, ◌+◌, ◌<◌, ◌≤◌, List, [], ◌∷◌, ◌++◌, length, true};
ghost use Rattle.std.specs.Prelude.{is_some, Some, IsTrue, false};
ghost use Rattle.std.specs.List.{AllByRecursion};
ghost use Rattle.page_model.specs.Lines.{Finished};
ghost use Rattle.page_model.specs.declared.trap.Trap.{Trap};
ghost use Rattle.page_model.specs.Titles.{Title};
ghost use Rattle.page_model.specs.Layout.{Layout, Diversion, page_place};
ghost use Rattle.page_model.specs.Happenings.{Happening, Places, Titles};
ghost use Rattle.page_model.specs.Stops.{place_of, stop_at, is_diverted};
ghost use Rattle.page_model.specs.Columns.{printed};
ghost use Rattle.page_model.specs.Puts.{puts, appended};
ghost use Rattle.page_model.specs.Turning.{with_event};
ghost use Rattle.page_model.specs.Springs.{springs_on_page, goes_on};
ghost use Rattle.page_model.specs.DeviceText.{device_lines};
ghost use Rattle.page_model.specs.Queries.{takes_text};
ghost use Rattle.roff_pages.specs.WholePages.{boxes_of_page, written_on_page, page_sizes};
ghost use Rattle.roff_pages.specs.WholePages.{keeps_length, keeps_page, closes_diversions};
ghost use Rattle.roff_pages.specs.Reach.{place_before, place_behind, IsMetAtEnd, texts, IsUncut};

/// One happening springs one trap: all traps that it passes lie where its boxes end, so none is
/// passed on the way there.
pub fn one_spring()
    ensures on_page { (x : Happening) (L : Layout) → is_diverted x L ≡ false
        → AllByRecursion (λ t. IsMetAtEnd (place_before x L) (place_behind x L)
        (place_of L.length t.place)) L.traps }
    ensures in_diversion { (x : Happening) (L : Layout) (d : Diversion) (ds : List Diversion)
        (t : Trap) → is_diverted x L ≡ true → L.diversions ≡ d ∷ ds → d.trap ≡ Some t
        → IsMetAtEnd (place_before x L) (place_behind x L)
        (stop_at (place_before x L) t.place) }
{}

/// Behind what is put on the page its place is below its length, or the layout is over. What is put
/// in a diversion ends no page.
pub fn page_ends()
    ensures on_page { (x : Happening) (L : Layout) → 0 < L.length → is_some (puts x L) ≡ true
        → is_diverted x L ≡ false → (with_event x L).is_over ≡ false
        → page_place (with_event x L) < (with_event x L).length }
    ensures in_diversion { (x : Happening) (L : Layout) → is_some (puts x L) ≡ true
        → is_diverted x L ≡ true
        → ((with_event x L).begun ≡ L.begun) × ((with_event x L).boxes ≡ L.boxes) }
{}

/// A page that ended has as many boxes as its length says, where the length stays while it is open.
pub fn full_pages()
    ensures { (xs : List Happening) (L : Layout) → page_place L < L.length
        → AllByRecursion (λ x. keeps_length x ≡ true) xs
        → AllByRecursion (λ n. n ≡ L.length) (page_sizes xs L) }
{}

/// An eject that goes on has sprung something.
pub fn eject_waits()
    ensures { (x : Happening) (L : Layout) → goes_on x L ≡ true
        → is_some (springs_on_page x L) ≡ true }
{}

/// Text has the same boxes on a page and in a diversion: each line and title one box of its text,
/// and where no stop cuts them the same blank lines.
pub fn as_diverted()
    ensures line { (line : Finished) (L : Layout)
        → texts (appended (Places line) L) ≡ printed line ∷ [] }
    ensures blank_lines { (line : Finished) (L M : Layout) → IsUncut line L → IsUncut line M
        → appended (Places line) L ≡ appended (Places line) M }
    ensures title { (t : Title) (L M : Layout)
        → appended (Titles t) L ≡ appended (Titles t) M }
{}

/// Once text may be taken without a page beginning, only the end of a diversion changes that.
pub fn takes_text_stays()
    ensures { (x : Happening) (L : Layout) → closes_diversions x ≡ false → takes_text L ≡ true
        → takes_text (with_event x L) ≡ true }
{}

/// What a page writes is its boxes in order, each with the offset in front and without blanks at
/// its end, from its beginning up to its end, where the offset stays.
pub fn page_texts()
    ensures { (xs : List Happening) (L : Layout) → L.is_listed ≡ true
        → AllByRecursion (λ x. keeps_page x ≡ true) xs
        → device_lines L.offset L.boxes ++ written_on_page xs L
        ≡ device_lines L.offset (boxes_of_page xs L) }
{}
