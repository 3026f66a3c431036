// The struct `Sheet`, and what holds of its fields.
ghost use Rattle.std.specs.Prelude.{◌≤◌, length};
ghost use Rattle.formats.specs.Format.{longest, most_names};
ghost use Rattle.sheets.specs.Held.{Bare, Ends, Named, Starts, Whole};

use formats::Layout;

// A sheet of clauses. It holds the text that it was loaded from, which another owns, and where its parts lie.
// A sheet with no names holds no text: that count is 0 itself, and no mark beside it.
#[derive(Clone, Copy)]
pub struct Sheet<'a> {
    pub(crate) text: &'a [u8],
    pub(crate) layout: Layout,
    ghost short: { length text.now ≤ longest },
    ghost few: { layout.names ≤ most_names },
    ghost ends: { Ends text.now layout },
    ghost bare: { Bare layout },
    ghost named: { Named text.now layout },
    ghost starts: { Starts text.now layout },
    ghost whole: { Whole text.now layout },
}
