//! The requests that do nothing, each by its name, and those that change what names stand for.

use crate::documents::{Expected, check};
use roff_tools::{Limits, Status};
use std::alloc::Global;
use std::process::Abort;
use std::test::Fail;

/// A request of this name between two words, called by a dot and by an apostrophe, does nothing; it
/// says this, if anything.
fn check_idle(rt: &impl Abort, alloc: Global, name: &str, message: &str) -> Result<(), Fail> {
    for control in ['.', '\''] {
        let document = format!(in alloc; ".pl 1\nab\n{control}{name} 1 x\ncd\n")?;
        let expected = Expected {
            output: "ab cd\n",
            messages: message,
            status: Status::Done,
        };
        check(rt, alloc, Limits::default(), document.as_str(), expected)?;
    }
    Ok(())
}

/// Those that are read without effect.
const IDLE: [&str; 15] = [
    "hy", "nh", "hc", "hw", "ft", "fp", "ps", "ss", "cs", "bd", "vs", "lg", "ul", "cu", "lf",
];

#[test]
fn some_are_read_without_effect(rt: HostRuntime) -> Result<(), Fail> {
    for name in &IDLE {
        check_idle(&rt, rt.alloc(), name, "")?;
    }
    Ok(())
}

/// Those that are left out.
const LEFT_OUT: [&str; 24] = [
    "so", "nx", "rd", "pi", "sy", "cf", "mk", "rt", "sv", "os", "fl", "tc", "lc", "fc", "ec", "eo",
    "cc", "c2", "tr", "nm", "nn", "mc", "uf", "pm",
];

#[test]
fn some_are_left_out(rt: HostRuntime) -> Result<(), Fail> {
    for name in &LEFT_OUT {
        let message = format!(in rt.alloc(); "nroff: line 3: left out: {name}\n")?;
        check_idle(&rt, rt.alloc(), name, message.as_str())?;
    }
    Ok(())
}

/// A document gives this text, and no message.
fn check_text(rt: &impl Abort, alloc: Global, document: &str, output: &str) -> Result<(), Fail> {
    let expected = Expected {
        output,
        messages: "",
        status: Status::Done,
    };
    check(rt, alloc, Limits::default(), document, expected)
}

#[test]
fn names_are_removed(rt: HostRuntime) -> Result<(), Fail> {
    let document = ".pl 1\n.ds s x\n.ds t y\n.rm s\n-\\*s.\\*t.\n";
    check_text(&rt, rt.alloc(), document, "-.y.\n")
}

#[test]
fn a_name_gets_what_another_one_stands_for(rt: HostRuntime) -> Result<(), Fail> {
    let document = ".pl 1\n.ds ab x\n.ds d y\n.rn abc d\n-\\*d.\\*(ab.\n";
    check_text(&rt, rt.alloc(), document, "-x..\n")
}

#[test]
fn without_two_names_nothing_is_renamed(rt: HostRuntime) -> Result<(), Fail> {
    let document = "\
.pl 1
.ds a x
.ds b y
.rn
.rn a
.rn a \"\"
.rn \"\" b
-\\*a.\\*b.
";
    check_text(&rt, rt.alloc(), document, "-x.y.\n")
}
