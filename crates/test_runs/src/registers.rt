//! What registers give, as documents tell it.

use crate::documents::{Expected, check, check_told};
use roff_tools::{Limit, Limits, Status};
use std::test::Fail;

#[test]
fn read_only_registers_tell_of_the_run(rt: HostRuntime) -> Result<(), Fail> {
    // Behind 7 newlines, an indent of 5 columns, a line length of 60, a last line of 13; at the top
    // of the second page of one line.
    let document = "\
.pl 1
.ll 60n
.in 5n
.nf
1234567890123
.fi
.tm \\n(.c \\n(.i \\n(.l \\n(.n \\n(.u
.tm \\n(.v \\n(.V \\n(.H
.tm \\n(.$ \\n(.d \\n(.o \\n(.p \\n(.t \\n(.z \\n(nl \\n(dn \\n(dl \\n% \\nx
.nf
.tm \\n(.u
";
    let expected = Expected {
        output: "     1234567890123\n",
        messages: "6 120 1440 312 1\n40 40 24\n0 0 0 40 40  0 0 0 2 0\n0\n",
        status: Status::Done,
    };
    check(&rt, rt.alloc(), Limits::default(), document, expected)
}

#[test]
fn registers_tell_of_diversions(rt: HostRuntime) -> Result<(), Fail> {
    // Before the first page: outside, in one within another, in that one, and behind both.
    let document = "\
.tm \\n(.d (\\n(.z)
.di D
.nf
a  b
.di ef
.tm \\n(.d (\\n(.z)
.di
.sp
 c
.tm \\n(.d (\\n(.z)
.di
.tm \\n(.d (\\n(.z) \\n(dn \\n(dl
";
    check_told(
        &rt,
        rt.alloc(),
        document,
        "-1 ()\n0 (ef)\n120 (D)\n-1 () 120 96\n",
    )
}

#[test]
fn a_great_indent_reads_as_whole_columns(rt: HostRuntime) -> Result<(), Fail> {
    let document = ".in 2147483647u\n.tm \\n(.i\n";
    check_told(&rt, rt.alloc(), document, "2147483640\n")
}

#[test]
fn only_named_registers_count(rt: HostRuntime) -> Result<(), Fail> {
    let limits = Limits {
        names: 1,
        ..Limits::DEFAULT
    };
    let document = "\
.nr x 3
.nr x 5
.nr % 9
.af % i
.nr .i 9
.tm \\nx \\ny \\n% \\n(.i
.rr x
.rr %
.nr y 4
.tm \\nx \\ny \\n%
.nr x 1
.tm never
";
    let expected = Expected {
        output: "",
        messages: "5 0 ix 0\n0 4 ix\nnroff: line 11: limit names (1) reached\n",
        status: Status::Limit(Limit::Names),
    };
    check(&rt, rt.alloc(), limits, document, expected)?;
    let expected = Expected {
        output: "",
        messages: "nroff: line 2: limit names (1) reached\n",
        status: Status::Limit(Limit::Names),
    };
    check(&rt, rt.alloc(), limits, ".nr x 3\n.af y a\n", expected)
}

#[test]
fn a_step_is_made_before_the_text(rt: HostRuntime) -> Result<(), Fail> {
    for name in ["x", "%"] {
        let document = format!(in rt.alloc();
            ".nr {name} 7 2\n.tm \\n+{name} \\n{name} \\n-{name} \\n-{name}\n"
        )?;
        check_told(&rt, rt.alloc(), document.as_str(), "9 9 7 5\n")?;
    }
    Ok(())
}

#[test]
fn a_step_out_of_range_is_reported(rt: HostRuntime) -> Result<(), Fail> {
    for name in ["x", "%"] {
        let document = format!(in rt.alloc(); ".nr {name} 2147483647 1\n.tm \\n+{name}\n")?;
        let messages = "nroff: line 2: bad number\n2147483647\n";
        check_told(&rt, rt.alloc(), document.as_str(), messages)?;
    }
    check_told(&rt, rt.alloc(), ".tm \\n+(.i \\n+y\n", "0 0\n")
}

/// The number of a page, and what is told of it.
const PAGE_NUMBERS: [(&str, &str); 4] = [
    ("0", "0 even\n"),
    ("2147483647", "2147483647 odd\n"),
    ("0-2147483647-1", "-2147483648 even\n"),
    ("0-1", "-1 odd\n"),
];

#[test]
fn the_greatest_page_number_is_odd_and_the_least_even(rt: HostRuntime) -> Result<(), Fail> {
    for (value, told) in &PAGE_NUMBERS {
        let document = format!(in rt.alloc();
            ".nr % {value}\n.if o .tm \\n% odd\n.if e .tm \\n% even\n"
        )?;
        check_told(&rt, rt.alloc(), document.as_str(), told)?;
    }
    Ok(())
}
