//! Options of limits, and what they give.

use super::command_lines::{Row, check_rows};

/// What the options of limits do.
static LIMIT_ROWS: [Row; 27] = [
    (
        &["roff", "nroff", "filled", "--bytes", "0"],
        3,
        "",
        "nroff: line 1: limit bytes (0) reached\n",
    ),
    (
        &["roff", "nroff", "filled", "--bytes", "1"],
        3,
        "",
        "nroff: line 1: limit bytes (1) reached\n",
    ),
    (
        &["roff", "nroff", "filled", "--bytes", "11"],
        3,
        "",
        "nroff: line 2: limit bytes (11) reached\n",
    ),
    (
        &["roff", "nroff", "filled", "--bytes", "12"],
        0,
        "ab cd\n",
        "",
    ),
    (
        &["roff", "nroff", "filled", "--bytes", "10000"],
        0,
        "ab cd\n",
        "",
    ),
    (
        &["roff", "nroff", "filled", "--bytes", "50000000"],
        0,
        "ab cd\n",
        "",
    ),
    (
        &["roff", "nroff", "filled", "--bytes", "1000000000"],
        0,
        "ab cd\n",
        "",
    ),
    (&["roff", "nroff", "--bytes=12", "filled"], 0, "ab cd\n", ""),
    (
        &["roff", "nroff", "--bytes=11", "filled"],
        3,
        "",
        "nroff: line 2: limit bytes (11) reached\n",
    ),
    (
        &["roff", "nroff", "one", "--bytes", "28", "two"],
        0,
        "one\ntwo\n",
        "",
    ),
    (
        &["roff", "nroff", "one", "--bytes", "27", "two"],
        3,
        "one\n",
        "nroff: line 6: limit bytes (27) reached\n",
    ),
    (
        &["roff", "nroff", "longer", "--line", "0"],
        3,
        "",
        "nroff: line 2: limit line (0) reached\n",
    ),
    (
        &["roff", "nroff", "longer", "--line", "1"],
        3,
        "",
        "nroff: line 2: limit line (1) reached\n",
    ),
    (
        &["roff", "nroff", "longer", "--line", "5"],
        3,
        "",
        "nroff: line 2: limit line (5) reached\n",
    ),
    (
        &["roff", "nroff", "longer", "--line", "6"],
        0,
        "abc de\n",
        "",
    ),
    (
        &["roff", "nroff", "longer", "--line", "4096"],
        0,
        "abc de\n",
        "",
    ),
    (
        &["roff", "nroff", "longer", "--line", "10000"],
        0,
        "abc de\n",
        "",
    ),
    (
        &["roff", "nroff", "longer", "--line", "1000000"],
        0,
        "abc de\n",
        "",
    ),
    (
        &["roff", "nroff", "--line=5", "longer"],
        3,
        "",
        "nroff: line 2: limit line (5) reached\n",
    ),
    (&["roff", "nroff", "--line=6", "longer"], 0, "abc de\n", ""),
    (
        &["roff", "nroff", "--line", "5", "--bytes", "9", "longer"],
        3,
        "",
        "nroff: line 2: limit bytes (9) reached\n",
    ),
    (
        &["roff", "nroff", "--line", "5", "--bytes", "99", "longer"],
        3,
        "",
        "nroff: line 2: limit line (5) reached\n",
    ),
    (
        &["roff", "nroff", "one", "--line=4", "two", "three"],
        3,
        "one\ntwo\n",
        "nroff: line 9: limit line (4) reached\n",
    ),
    (
        &[
            "roff",
            "nroff",
            "filled",
            "--store=0",
            "--stack=1",
            "--depth=0",
            "--names=0",
            "--traps=0",
            "--diversions=0",
            "--environments=0",
            "--conditions=0",
        ],
        0,
        "ab cd\n",
        "",
    ),
    (
        &["roff", "nroff", "filled", "--stack=0"],
        3,
        "",
        "nroff: line 1: limit stack (0) reached\n",
    ),
    (
        &["roff", "nroff", "--output", "6", "filled"],
        0,
        "ab cd\n",
        "",
    ),
    (
        &["roff", "nroff", "one", "--output=6", "two", "three"],
        3,
        "one\n",
        "nroff: line 6: limit output (6) reached\n",
    ),
];

#[test]
fn limits(rt: HostRuntime) {
    check_rows(&rt, rt.alloc(), &LIMIT_ROWS);
}
