//! The first page's number, and the pages that are written, as command lines ask for them.

use super::command_lines::{Row, check_rows};
use super::mistake_texts;

/// What is asked for.
static GIVEN_ROWS: [Row; 10] = [
    (&["roff", "nroff", "paged"], 0, "1\n2\n3\n", ""),
    (&["roff", "nroff", "-n5", "paged"], 0, "5\n6\n7\n", ""),
    (&["roff", "nroff", "-o2", "paged"], 0, "2\n", ""),
    (&["roff", "nroff", "paged", "-n5", "-o6-"], 0, "6\n7\n", ""),
    (
        &["roff", "nroff", "-n=5", "--pages=5", "paged"],
        0,
        "5\n",
        "",
    ),
    (
        &["roff", "nroff", "-n", "0", "-o", "1,2", "paged"],
        0,
        "1\n2\n",
        "",
    ),
    (&["roff", "both", "-n5", "-o7", "paged"], 0, "7\n", ""),
    (
        &["roff", "nroff", "-o2,4", "paged", "one"],
        0,
        "2\none\n",
        "",
    ),
    (
        &[
            "roff",
            "nroff",
            "-ra5",
            "-o1",
            "--first-page",
            "1",
            "telling",
        ],
        0,
        "5 0\n",
        "",
    ),
    (&["roff", "nroff", "-o4", "paged"], 0, "", ""),
];

/// Bad lists of pages: they are told before registers and files are looked at.
static BAD_ROWS: [Row; 6] = [
    (
        &["roff", "nroff", "-ox", "paged"],
        1,
        "",
        "roff: bad page list: x\n",
    ),
    (
        &["roff", "nroff", "-ry", "-ox", "none"],
        1,
        "",
        "roff: bad page list: x\n",
    ),
    (
        &["roff", "nroff", "-o1", "-ry", "none"],
        1,
        "",
        "roff: bad register: y\n",
    ),
    (
        &["roff", "nroff", "-o1", "none"],
        1,
        "",
        "roff: cannot open none\n",
    ),
    (
        &["roff", "both", "--pages=", "paged"],
        1,
        "",
        "roff: bad page list: \n",
    ),
    (
        &["roff", "nroff", "-o2-1", "paged"],
        1,
        "",
        "roff: bad page list: 2-1\n",
    ),
];

/// Mistakes, which are told before any list is looked at.
static MISTAKE_ROWS: [Row; 8] = [
    (
        &["roff", "nroff", "-nx", "paged"],
        1,
        "",
        mistake_texts::NO_FIRST_PAGE,
    ),
    (
        &["roff", "nroff", "-ox", "-n100000"],
        1,
        "",
        mistake_texts::FIRST_PAGE_ABOVE_RANGE,
    ),
    (
        &["roff", "nroff", "paged", "-n"],
        1,
        "",
        mistake_texts::FIRST_PAGE_WITHOUT_NUMBER,
    ),
    (
        &["roff", "nroff", "-n1", "-n2"],
        1,
        "",
        mistake_texts::FIRST_PAGE_TWICE,
    ),
    (
        &["roff", "nroff", "paged", "-o"],
        1,
        "",
        mistake_texts::PAGES_WITHOUT_LIST,
    ),
    (
        &["roff", "nroff", "-o1", "-o2"],
        1,
        "",
        mistake_texts::PAGES_TWICE,
    ),
    (
        &["roff", "tbl", "-o1"],
        1,
        "",
        mistake_texts::PAGES_OF_TABLES,
    ),
    (
        &["roff", "tbl", "-n1"],
        1,
        "",
        mistake_texts::FIRST_PAGE_OF_TABLES,
    ),
];

#[test]
fn pages_given(rt: HostRuntime) {
    check_rows(&rt, rt.alloc(), &GIVEN_ROWS);
}

#[test]
fn bad_page_lists(rt: HostRuntime) {
    check_rows(&rt, rt.alloc(), &BAD_ROWS);
}

#[test]
fn mistakes_in_pages(rt: HostRuntime) {
    check_rows(&rt, rt.alloc(), &MISTAKE_ROWS);
}
