//! Facts about the table of requests, and about those that do nothing, as contracts of functions
//! that do nothing.

ghost use Rattle.law_runs.specs.RequestLaws.{EachIsListedOnce, EachIsNamed, EachNameHasTwoBytes};
ghost use Rattle.law_runs.specs.RequestLaws.{LeftOutOnlySaysSo, WithoutEffectDoesNothing};

/// Each request is listed once, and no two have the same name.
pub fn request_names()
    ensures named { EachIsNamed }
    ensures listed_once { EachIsListedOnce }
    ensures two_bytes { EachNameHasTwoBytes }
{}

/// Requests that are read without effect do nothing, and those that are left out only say so.
pub fn other_requests()
    ensures without_effect { WithoutEffectDoesNothing }
    ensures left_out { LeftOutOnlySaysSo }
{}
