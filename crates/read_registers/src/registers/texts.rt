//! Registers as they are written.

ghost use Rattle.std.specs.Prelude.{◌≡◌};
ghost use Rattle.roff_num.specs.RegisterText.{register_text};
ghost use Rattle.read_registers.specs.Registers.Coded.{AreOf};
ghost use Rattle.run_model.specs.Registers.{Known, name_told, text_answered};

use super::Facts;
use roff_num::{Format, Num, NumText, ShortName, write_num};
use run_model::Query;

impl Facts<'_> {
    /// The text of a read-only register that asks for this.
    pub(super) fn text(self, query: Query) -> NumText
        ensures { (k : Known) → AreOf k self.entry → result.items ≡ text_answered k query }
    {
        match query {
            Query::DiversionName => name_text(self.composer.pages.diversion_name()),
            _ => written(Num(self.answer(query)), Format::Decimal(1)),
        }
    }
}

/// A name, or nothing.
fn name_text(name: Option<ShortName>) -> NumText
    ensures { result.items ≡ name_told name }
{
    let mut text = NumText::new();
    let Some(name) = name else {
        return text;
    };
    text.push(name.first);
    if let Some(second) = name.second {
        text.push(second);
    }
    text
}

/// A value in a format.
pub(super) fn written(value: Num, format: Format) -> NumText
    ensures { result.items ≡ register_text format value.0 }
{
    let mut text = NumText::new();
    write_num(value, format, &mut text);
    text
}
