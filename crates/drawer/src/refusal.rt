// Why a call on a drawer is refused, and what the display shows of it.
ghost use Rattle.std.specs.Prelude.{◌≡◌};
ghost use Rattle.drawer.specs.Shown.{shown_drawer};
ghost use Rattle.drawer.specs.declared.refusal.DrawerRefusal.TheVariants.{Map};

use maps::{Refusal, Shown};

// The map's own refusal, 1 to 9, or 13 to 18: a count or bytes that do not fit, a bad record, no record with the layout, the die
// number 0 (at 0) or filed already (at its record), a layout filed already, no room for one record more.
// A variant of its own for the die number 0 would show what `Die(0)` shows, and then a second answer would fit.
#[derive(Clone, Copy, Debug, PartialEq, Eq)]
pub enum DrawerRefusal {
    Map(Refusal),
    Short,
    Bad(usize),
    NotFound,
    Die(usize),
    Layout(usize),
    Full,
}

impl Shown for DrawerRefusal {
    ghost shown = { shown_drawer };

    #[tactic(auto, unfolding(maps::specs::Verdict::refused))]
    fn number_and_place(&self) -> (u32, usize) {
        match *self {
            DrawerRefusal::Map(own) => own.number_and_place(),
            DrawerRefusal::Short => (13, 0),
            DrawerRefusal::Bad(record) => (14, record),
            DrawerRefusal::NotFound => (15, 0),
            DrawerRefusal::Die(record) => (16, record),
            DrawerRefusal::Layout(record) => (17, record),
            DrawerRefusal::Full => (18, 0),
        }
    }
}

impl From<Refusal> for DrawerRefusal {
    ghost from_gives = { λ refusal result. result ≡ Map refusal };

    fn from(refusal: Refusal) -> DrawerRefusal {
        DrawerRefusal::Map(refusal)
    }
}
