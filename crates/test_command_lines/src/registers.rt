//! Number registers that command lines set.

use super::command_lines::{Row, check_rows};
use super::mistake_texts;

/// Registers that are set.
static GIVEN_ROWS: [Row; 15] = [
    (&["roff", "nroff", "telling"], 0, "0 0\n", ""),
    (&["roff", "nroff", "-ra5", "telling"], 0, "5 0\n", ""),
    (&["roff", "nroff", "telling", "-ra5"], 0, "5 0\n", ""),
    (
        &["roff", "nroff", "-ra5", "-rb6", "telling"],
        0,
        "5 6\n",
        "",
    ),
    (
        &["roff", "nroff", "-ra5", "-ra6", "telling"],
        0,
        "6 0\n",
        "",
    ),
    (&["roff", "nroff", "-r", "a5", "telling"], 0, "5 0\n", ""),
    (
        &[
            "roff",
            "nroff",
            "--register",
            "a5",
            "telling",
            "--register=b6",
        ],
        0,
        "5 6\n",
        "",
    ),
    (
        &["roff", "nroff", "-ra5", "--bytes", "99", "-rb6", "telling"],
        0,
        "5 6\n",
        "",
    ),
    (
        &["roff", "nroff", "-ra1i/7", "-rb(1+2)*3", "telling"],
        0,
        "34 9\n",
        "",
    ),
    (
        &["roff", "nroff", "-ra-1", "-rb+2", "telling"],
        0,
        "-1 2\n",
        "",
    ),
    (
        &[
            "roff",
            "nroff",
            "-ra2147483647",
            "-rb-2147483648",
            "telling",
        ],
        0,
        "2147483647 -2147483648\n",
        "",
    ),
    (
        &["roff", "nroff", "-r!1", "-r~2", "-r%3", "telling"],
        0,
        "0 0\n",
        "",
    ),
    (
        &["roff", "nroff", "-r=5", "-r--5", "telling"],
        0,
        "0 0\n",
        "",
    ),
    (&["roff", "both", "-ra5", "telling", "-rb6"], 0, "5 6\n", ""),
    (
        &["roff", "nroff", "--", "-r=5"],
        0,
        "named like a register\n",
        "",
    ),
];

/// Texts that ask for no register.
static BAD_ROWS: [Row; 29] = [
    (
        &["roff", "nroff", "--register=", "telling"],
        1,
        "",
        "roff: bad register: \n",
    ),
    (
        &["roff", "nroff", "--register", "", "telling"],
        1,
        "",
        "roff: bad register: \n",
    ),
    (
        &["roff", "nroff", "-r", "", "telling"],
        1,
        "",
        "roff: bad register: \n",
    ),
    (
        &["roff", "nroff", "-ra", "telling"],
        1,
        "",
        "roff: bad register: a\n",
    ),
    (
        &["roff", "nroff", "-r=", "telling"],
        1,
        "",
        "roff: bad register: =\n",
    ),
    (
        &["roff", "nroff", "-r==5", "telling"],
        1,
        "",
        "roff: bad register: ==5\n",
    ),
    (
        &["roff", "nroff", "-rax", "telling"],
        1,
        "",
        "roff: bad register: ax\n",
    ),
    (
        &["roff", "nroff", "-ra+", "telling"],
        1,
        "",
        "roff: bad register: a+\n",
    ),
    (
        &["roff", "nroff", "-ra(5", "telling"],
        1,
        "",
        "roff: bad register: a(5\n",
    ),
    (
        &["roff", "nroff", "-ra5)", "telling"],
        1,
        "",
        "roff: bad register: a5)\n",
    ),
    (
        &["roff", "nroff", "-ra5+", "telling"],
        1,
        "",
        "roff: bad register: a5+\n",
    ),
    (
        &["roff", "nroff", "-ra5x", "telling"],
        1,
        "",
        "roff: bad register: a5x\n",
    ),
    (
        &["roff", "nroff", "-ra5 ", "telling"],
        1,
        "",
        "roff: bad register: a5 \n",
    ),
    (
        &["roff", "nroff", "-ra 5", "telling"],
        1,
        "",
        "roff: bad register: a 5\n",
    ),
    (
        &["roff", "nroff", "-ra|5", "telling"],
        1,
        "",
        "roff: bad register: a|5\n",
    ),
    (
        &["roff", "nroff", "-ra5/0", "telling"],
        1,
        "",
        "roff: bad register: a5/0\n",
    ),
    (
        &["roff", "nroff", "-ra5%0", "telling"],
        1,
        "",
        "roff: bad register: a5%0\n",
    ),
    (
        &["roff", "nroff", "-ra2147483648", "telling"],
        1,
        "",
        "roff: bad register: a2147483648\n",
    ),
    (
        &["roff", "nroff", "-ra-2147483649", "telling"],
        1,
        "",
        "roff: bad register: a-2147483649\n",
    ),
    (
        &["roff", "nroff", "-rab5", "telling"],
        1,
        "",
        "roff: bad register: ab5\n",
    ),
    (
        &["roff", "nroff", "-r 5", "telling"],
        1,
        "",
        "roff: bad register:  5\n",
    ),
    (
        &["roff", "nroff", "-r\x7f5", "telling"],
        1,
        "",
        "roff: bad register: \x7f5\n",
    ),
    (
        &["roff", "nroff", "-ré5", "telling"],
        1,
        "",
        "roff: bad register: é5\n",
    ),
    (
        &["roff", "nroff", "-rb5", "-rax", "-ray", "telling"],
        1,
        "",
        "roff: bad register: ax\n",
    ),
    (
        &["roff", "nroff", "-ray", "-rax", "telling"],
        1,
        "",
        "roff: bad register: ay\n",
    ),
    (
        &["roff", "nroff", "-rx", "none"],
        1,
        "",
        "roff: bad register: x\n",
    ),
    (
        &["roff", "nroff", "none", "-rx"],
        1,
        "",
        "roff: bad register: x\n",
    ),
    (
        &["roff", "nroff", "none", "-rx5"],
        1,
        "",
        "roff: cannot open none\n",
    ),
    (
        &["roff", "both", "-rx", "telling"],
        1,
        "",
        "roff: bad register: x\n",
    ),
];

/// Words that the parser refuses.
static MISTAKE_ROWS: [Row; 5] = [
    (
        &["roff", "nroff", "telling", "-r"],
        1,
        "",
        mistake_texts::NO_REGISTER,
    ),
    (
        &["roff", "nroff", "-r", "-5", "telling"],
        1,
        "",
        mistake_texts::NEGATIVE_REGISTER,
    ),
    (
        &["roff", "nroff", "-rx", "--line", "x"],
        1,
        "",
        mistake_texts::NO_NUMBER,
    ),
    (
        &["roff", "tbl", "-ra5", "telling"],
        1,
        "",
        mistake_texts::REGISTER_OF_TABLES,
    ),
    (
        &["roff", "-ra5", "nroff"],
        1,
        "",
        mistake_texts::EARLY_REGISTER,
    ),
];

/// As many registers as can be set.
static SIXTY_FOUR: [&str; 67] = [
    "roff", "nroff", "telling", "-ra1", "-ra2", "-ra3", "-ra4", "-ra5", "-ra6", "-ra7", "-ra8",
    "-ra9", "-ra10", "-ra11", "-ra12", "-ra13", "-ra14", "-ra15", "-ra16", "-ra17", "-ra18",
    "-ra19", "-ra20", "-ra21", "-ra22", "-ra23", "-ra24", "-ra25", "-ra26", "-ra27", "-ra28",
    "-ra29", "-ra30", "-ra31", "-ra32", "-ra33", "-ra34", "-ra35", "-ra36", "-ra37", "-ra38",
    "-ra39", "-ra40", "-ra41", "-ra42", "-ra43", "-ra44", "-ra45", "-ra46", "-ra47", "-ra48",
    "-ra49", "-ra50", "-ra51", "-ra52", "-ra53", "-ra54", "-ra55", "-ra56", "-ra57", "-ra58",
    "-ra59", "-ra60", "-ra61", "-ra62", "-ra63", "-ra64",
];

/// One more.
static SIXTY_FIVE: [&str; 68] = [
    "roff", "nroff", "telling", "-ra1", "-ra2", "-ra3", "-ra4", "-ra5", "-ra6", "-ra7", "-ra8",
    "-ra9", "-ra10", "-ra11", "-ra12", "-ra13", "-ra14", "-ra15", "-ra16", "-ra17", "-ra18",
    "-ra19", "-ra20", "-ra21", "-ra22", "-ra23", "-ra24", "-ra25", "-ra26", "-ra27", "-ra28",
    "-ra29", "-ra30", "-ra31", "-ra32", "-ra33", "-ra34", "-ra35", "-ra36", "-ra37", "-ra38",
    "-ra39", "-ra40", "-ra41", "-ra42", "-ra43", "-ra44", "-ra45", "-ra46", "-ra47", "-ra48",
    "-ra49", "-ra50", "-ra51", "-ra52", "-ra53", "-ra54", "-ra55", "-ra56", "-ra57", "-ra58",
    "-ra59", "-ra60", "-ra61", "-ra62", "-ra63", "-ra64", "-rb1",
];

/// One more, which is bad as well.
static SIXTY_FIVE_OF_WHICH_ONE_IS_BAD: [&str; 69] = [
    "roff", "nroff", "telling", "-ra1", "-ra2", "-ra3", "-ra4", "-ra5", "-ra6", "-ra7", "-ra8",
    "-ra9", "-ra10", "-ra11", "-ra12", "-ra13", "-ra14", "-ra15", "-ra16", "-ra17", "-ra18",
    "-ra19", "-ra20", "-ra21", "-ra22", "-ra23", "-ra24", "-ra25", "-ra26", "-ra27", "-ra28",
    "-ra29", "-ra30", "-ra31", "-ra32", "-ra33", "-ra34", "-ra35", "-ra36", "-ra37", "-ra38",
    "-ra39", "-ra40", "-ra41", "-ra42", "-ra43", "-ra44", "-ra45", "-ra46", "-ra47", "-ra48",
    "-ra49", "-ra50", "-ra51", "-ra52", "-ra53", "-ra54", "-ra55", "-ra56", "-ra57", "-ra58",
    "-ra59", "-ra60", "-ra61", "-ra62", "-ra63", "-ra64", "-rx", "-ry",
];

#[test]
fn registers_given(rt: HostRuntime) {
    check_rows(&rt, rt.alloc(), &GIVEN_ROWS);
}

#[test]
fn bad_registers(rt: HostRuntime) {
    check_rows(&rt, rt.alloc(), &BAD_ROWS);
}

#[test]
fn mistakes_in_registers(rt: HostRuntime) {
    check_rows(&rt, rt.alloc(), &MISTAKE_ROWS);
}

#[test]
fn many_registers(rt: HostRuntime) {
    let rows: [Row; 3] = [
        (&SIXTY_FOUR, 0, "64 0\n", ""),
        (&SIXTY_FIVE, 1, "", "roff: bad register: b1\n"),
        (
            &SIXTY_FIVE_OF_WHICH_ONE_IS_BAD,
            1,
            "",
            "roff: bad register: x\n",
        ),
    ];
    check_rows(&rt, rt.alloc(), &rows);
}
