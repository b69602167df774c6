//! What each request does.

ghost use Rattle.std.specs.Prelude.{◌≡◌, ℕ, List};
ghost use Rattle.run_model.specs.Registers.{Known};
ghost use Rattle.read_requests.specs.Request.Coded.{GivesFirst, KnowsOf, response_of};
ghost use Rattle.run_model.specs.Requests.{row_of};

mod adjustment;
mod diverting;
mod effects;
mod lengths;
mod naming;
mod numbering;
mod paging;
mod spacing;
mod springing;
mod switching;
mod tabs;
mod titles;
mod traps;

use Request::{LeftOut, WithoutEffect};
pub(crate) use effects::PageFacts;
pub use effects::{Changes, RequestFacts, Response};
pub use lengths::length_wanted;
pub use numbering::{Numbers, numbers_given, register_named};
use page_model::Param;
use run_model::Request;
pub use tabs::tab_stops;

/// The first arguments of a request, as far as they are given.
#[derive(Clone, Copy, Debug)]
pub struct Given<'a> {
    pub first: Option<&'a [u8]>,
    pub second: Option<&'a [u8]>,
    pub third: Option<&'a [u8]>,
}

/// What a request does behind its break, as far as the run is known, with these arguments.
#[inline(always)]
pub fn response(request: Request, known: RequestFacts<'_>, given: Given<'_>) -> Response
    ensures { (k : Known) (as_given : List (List ℕ))
        → KnowsOf k request as_given known.entry → GivesFirst as_given given.entry
        → response_of as_given result ≡ (row_of request).does k as_given }
{
    match request {
        Request::Abort => Response::nothing(),
        Request::Adjust => adjustment::adjust(given.first),
        Request::AssignFormat => numbering::assign_format(given.first, given.second),
        Request::AppendDiversion => diverting::divert(true, given.first),
        Request::AppendMacro => Response::nothing(),
        Request::AppendString => Response::nothing(),
        Request::BeginPage => paging::begin_page(known.pages(), given.first),
        Request::Break => Response::nothing(),
        Request::Centre => adjustment::centre(given.first),
        Request::ChangeTrap => traps::change_trap(known.pages(), given.first, given.second),
        Request::DefineMacro => Response::nothing(),
        Request::DefineString => Response::nothing(),
        Request::DiversionTrap => {
            diverting::diversion_trap(known.pages(), given.first, given.second)
        }
        Request::Divert => diverting::divert(false, given.first),
        Request::Else => Response::nothing(),
        Request::EndMacro => naming::end_macro(given.first),
        Request::Environment => switching::switch(known.has_left(), given.first),
        Request::Exit => Response::nothing(),
        Request::Fill => Response::setting(Param::Filling(true)),
        Request::IfElse => Response::nothing(),
        Request::If => Response::nothing(),
        Request::Ignore => Response::nothing(),
        Request::Indent => lengths::indent(known.settings(), given.first),
        Request::InputTrap => springing::input_trap(given.first, given.second),
        Request::LineLength => lengths::line_length(known.settings(), given.first),
        Request::LineSpacing => spacing::line_spacing(known.settings(), given.first),
        Request::TitleLength => lengths::title_length(known.settings(), given.first),
        Request::NoAdjust => Response::setting(Param::Adjusting(false)),
        Request::Need => spacing::need(known.pages(), given.first),
        Request::NoFill => Response::setting(Param::Filling(false)),
        Request::NumberRegister => numbering::set_register(known, given),
        Request::NoSpace => spacing::spaceless(true),
        Request::PageCharacter => titles::page_character(given.first),
        Request::PageLength => paging::page_length(known.pages(), given.first),
        Request::PageNumber => paging::page_number(known.pages(), given.first),
        Request::PageOffset => paging::page_offset(known.pages(), given.first),
        Request::PlantTrap => traps::plant_trap(known.pages(), given.first, given.second),
        Request::RemoveNames => Response::changing(Changes::RemoveNamesGiven),
        Request::Rename => naming::rename(given.first, given.second),
        Request::RemoveRegisters => Response::changing(Changes::RemoveGiven),
        Request::RestoreSpacing => spacing::spaceless(false),
        Request::Space => spacing::space_down(known.pages(), given.first),
        Request::TabStops => Response::SetsStops,
        Request::TemporaryIndent => lengths::temporary_indent(known.settings(), given.first),
        Request::Title => titles::place_title(),
        Request::TellMessage => Response::nothing(),
        WithoutEffect(_) => Response::nothing(),
        LeftOut(name) => Response::left_out(name),
    }
}
