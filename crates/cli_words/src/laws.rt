//! Facts about the definitions alone, as contracts of functions that do nothing.

ghost use Rattle.std.specs.Prelude.{◌≡◌, [], ◌∷◌, Err, None, Ok, Some, codes, false, negsuc, pos};
ghost use Rattle.cli_words.specs.Clauses.{ArgumentConflict, DisplayHelp, DisplayVersion};
ghost use Rattle.cli_words.specs.Clauses.{EachOptionSetsItsLimit, InvalidValue};
ghost use Rattle.cli_words.specs.Clauses.{MissingSubcommand, UnknownArgument, ValueValidation};
ghost use Rattle.cli_words.specs.Clauses.{asked, default_limits, default_tbl_limits, fault};
ghost use Rattle.cli_words.specs.Clauses.{first_page, page, pages};
ghost use Rattle.cli_words.specs.Clauses.{formats, formats_tables, limited, limits_asked};
ghost use Rattle.cli_words.specs.Clauses.{numbered, registers, tables, tables_numbered};
ghost use Rattle.cli_words.specs.Clauses.{tbl_limits_asked, tbl_value_of, value_of, valued};
ghost use Rattle.cli_words.specs.Clauses.{words_prepared};

/// Each limit of the formatter has an option, which sets it alone; and so has each of tables.
pub fn limit_options()
    ensures each { EachOptionSetsItsLimit value_of limits_asked default_limits }
    ensures of_tables { EachOptionSetsItsLimit tbl_value_of tbl_limits_asked default_tbl_limits }
{}

/// What command lines ask for: files and limits.
#[tactic(auto, unfolding(crate::proofs::OnLiterals::words_on_literals))]
pub fn command_lines()
    ensures nothing { asked (codes "nroff" ∷ []) ≡ formats (codes "-" ∷ []) default_limits }
    ensures options { asked (codes "nroff" ∷ codes "a" ∷ codes "--line=0" ∷ codes " b"
        ∷ codes "--bytes" ∷ codes "7" ∷ codes "-" ∷ [])
        ≡ formats (codes "a" ∷ codes " b" ∷ codes "-" ∷ []) (limited 7 0) }
    ensures greatest { asked (codes "nroff" ∷ codes "--bytes=1000000000"
        ∷ codes "--line" ∷ codes "1000000000" ∷ [])
        ≡ formats (codes "-" ∷ []) (limited 1000000000 1000000000) }
    ensures all { asked (codes "nroff" ∷ codes "--messages=12" ∷ codes "--conditions=11"
        ∷ codes "--environments=10" ∷ codes "--diversions=9" ∷ codes "--output=8"
        ∷ codes "--traps=7" ∷ codes "--line=6"
        ∷ codes "--names=5" ∷ codes "--depth=4" ∷ codes "--stack=3" ∷ codes "--store=2"
        ∷ codes "--bytes=1" ∷ []) ≡ formats (codes "-" ∷ []) numbered }
    ensures operands { asked (codes "nroff" ∷ codes "--" ∷ codes "--line" ∷ codes "-" ∷ [])
        ≡ formats (codes "--line" ∷ codes "-" ∷ []) default_limits }
    ensures tables { asked (codes "tbl" ∷ codes "a" ∷ [])
        ≡ tables (codes "a" ∷ []) default_tbl_limits 65 }
    ensures all_of_tables { asked (codes "tbl" ∷ codes "--messages=7" ∷ codes "--output=6"
        ∷ codes "--bytes=5" ∷ codes "--width=4" ∷ codes "--text=3" ∷ codes "--columns=2"
        ∷ codes "--rows=1" ∷ codes "--line-length=7" ∷ [])
        ≡ tables (codes "-" ∷ []) tables_numbered 7 }
    ensures both { asked (codes "both" ∷ codes "--bytes=7" ∷ codes "--line=0"
        ∷ codes "--line-length" ∷ codes "21" ∷ codes "a" ∷ [])
        ≡ formats_tables (codes "a" ∷ []) (limited 7 0)
        (record default_tbl_limits { bytes = 7 }) 21 }
    ensures messages_of_both { asked (codes "both" ∷ codes "--messages=7" ∷ [])
        ≡ formats_tables (codes "-" ∷ []) (record default_limits { messages = 7 })
        default_tbl_limits 65 }
{}

/// The registers that command lines set.
#[tactic(auto, unfolding(crate::proofs::OnLiterals::words_on_literals))]
pub fn command_line_registers()
    ensures none { registers (codes "nroff" ∷ []) ≡ Some (Ok []) }
    ensures in_order { registers (codes "nroff" ∷ codes "-ra5" ∷ codes "-r" ∷ codes "b1i"
        ∷ codes "--register=a-7" ∷ [])
        ≡ Some (Ok (valued 97 (pos 5) ∷ valued 98 (pos 240) ∷ valued 97 (negsuc 6) ∷ [])) }
    ensures bad { registers (codes "both" ∷ codes "-ra5" ∷ codes "-ra5x" ∷ codes "-rx" ∷ [])
        ≡ Some (Err (codes "a5x")) }
    ensures without_text { registers (codes "nroff" ∷ codes "--register=" ∷ [])
        ≡ Some (Err []) }
    ensures equals_sign { registers (words_prepared false (codes "nroff" ∷ codes "-r=5" ∷ []))
        ≡ Some (Ok (valued 61 (pos 5) ∷ [])) }
    ensures files { words_prepared false (codes "nroff" ∷ codes "--" ∷ codes "-r=5" ∷ [])
        ≡ codes "nroff" ∷ codes "--" ∷ codes "-r=5" ∷ [] }
{}

/// The number of the first page, and the pages that command lines ask for.
#[tactic(auto, unfolding(crate::proofs::OnLiterals::words_on_literals))]
pub fn command_line_pages()
    ensures no_number { first_page (codes "nroff" ∷ []) ≡ Some None }
    ensures number { first_page (codes "nroff" ∷ codes "-n5" ∷ []) ≡ Some (Some (page 5)) }
    ensures greatest_number { first_page (codes "both" ∷ codes "--first-page" ∷ codes "99999" ∷ [])
        ≡ Some (Some (page 99999)) }
    ensures all { pages (codes "nroff" ∷ []) ≡ Some (Ok []) }
    ensures one { pages (codes "nroff" ∷ codes "-o6" ∷ []) ≡ Some (Ok ((page 6, page 6) ∷ [])) }
    ensures ranges { pages (codes "both" ∷ codes "--pages=1,3-4,0-0,7-" ∷ [])
        ≡ Some (Ok ((page 1, page 1) ∷ (page 3, page 4) ∷ (page 0, page 0)
        ∷ (page 7, page 2147483647) ∷ [])) }
    ensures without_text { pages (codes "nroff" ∷ codes "--pages=" ∷ []) ≡ Some (Err []) }
    ensures without_a_range { pages (codes "nroff" ∷ codes "-o1,,2" ∷ [])
        ≡ Some (Err (codes "1,,2")) }
    ensures without_a_first_page { pages (codes "nroff" ∷ codes "-o-3" ∷ [])
        ≡ Some (Err (codes "-3")) }
    ensures backwards { pages (codes "nroff" ∷ codes "-o4-3" ∷ []) ≡ Some (Err (codes "4-3")) }
    ensures with_a_sign { pages (codes "nroff" ∷ codes "-o+3" ∷ []) ≡ Some (Err (codes "+3")) }
    ensures too_great { pages (codes "nroff" ∷ codes "-o2147483648" ∷ [])
        ≡ Some (Err (codes "2147483648")) }
{}

/// The faults of command lines.
#[tactic(auto, unfolding(crate::proofs::OnLiterals::words_on_literals))]
pub fn command_line_faults()
    ensures no_command { fault [] ≡ MissingSubcommand ∷ [] }
    ensures help { fault (codes "--help" ∷ []) ≡ DisplayHelp ∷ [] }
    ensures version { fault (codes "-V" ∷ []) ≡ DisplayVersion ∷ [] }
    ensures help_of_nroff { fault (codes "nroff" ∷ codes "a" ∷ codes "-h" ∷ []) ≡ DisplayHelp ∷ [] }
    ensures unknown { fault (codes "nroff" ∷ codes "--page" ∷ []) ≡ UnknownArgument ∷ [] }
    ensures no_number { fault (codes "nroff" ∷ codes "--line=x" ∷ []) ≡ ValueValidation ∷ [] }
    ensures too_great { fault (codes "nroff" ∷ codes "--bytes=1000000001" ∷ [])
        ≡ ValueValidation ∷ [] }
    ensures too_great_later { fault (codes "nroff" ∷ codes "--conditions=1000000001" ∷ [])
        ≡ ValueValidation ∷ [] }
    ensures no_value { fault (codes "nroff" ∷ codes "--bytes" ∷ []) ≡ InvalidValue ∷ [] }
    ensures twice { fault (codes "nroff" ∷ codes "--line=1" ∷ codes "--line=2" ∷ [])
        ≡ ArgumentConflict ∷ [] }
    ensures not_of_tables { fault (codes "tbl" ∷ codes "--depth=1" ∷ []) ≡ UnknownArgument ∷ [] }
    ensures no_first_page { fault (codes "nroff" ∷ codes "-nx" ∷ []) ≡ ValueValidation ∷ [] }
    ensures too_great_a_first_page { fault (codes "nroff" ∷ codes "-n100000" ∷ [])
        ≡ ValueValidation ∷ [] }
    ensures no_pages_of_tables { fault (codes "tbl" ∷ codes "-o1" ∷ []) ≡ UnknownArgument ∷ [] }
    ensures pages_twice { fault (codes "nroff" ∷ codes "-o1" ∷ codes "-o2" ∷ [])
        ≡ ArgumentConflict ∷ [] }
    ensures no_register { fault (codes "nroff" ∷ codes "-r" ∷ []) ≡ InvalidValue ∷ [] }
    ensures no_register_of_tables { fault (codes "tbl" ∷ codes "-ra5" ∷ [])
        ≡ UnknownArgument ∷ [] }
    ensures not_of_text { fault (codes "nroff" ∷ codes "--rows=1" ∷ []) ≡ UnknownArgument ∷ [] }
{}
