//! The rule under which lanes share the map, and what their steps tell.
ghost use Rattle.std.specs.Prelude.{List};
ghost use Rattle.map_model.specs.History.{Entry};

use crate::view::View;
use atomic_table::{Join, Play, Split, TableRule};
use map_model::PlainMap;
use std::marker::{Brand, PhantomData};

/// The word says which lane has the map, and the map is the one that the history leaves.
pub struct Law;

impl TableRule<PlainMap, View, u32> for Law {
    ghost use Rattle.lane_stores.specs.Rule.{Kept, first_view};

    ghost holds = { λ most s. Kept most s };

    ghost first = { λ most. first_view most };
}

/// A step that takes the map, where nobody has it.
pub(crate) struct Locks;

impl Play<PlainMap, View> for Locks {
    ghost use Rattle.lane_stores.specs.Steps.{Locked};

    ghost then = { Locked };
}

/// The entries that a step adds to the history. Each call picks them.
pub(crate) trait Adds {
    ghost use Rattle.std.specs.Prelude.{List};
    ghost use Rattle.map_model.specs.History.{Entry};

    ghost entries: { List Entry };
}

impl Adds for Brand {
    ghost use Rattle.std.specs.Prelude.{[]};

    ghost entries = { [] };
}

/// A step that gives the map back, and adds these entries.
pub(crate) struct Unlocks<J> {
    marker: PhantomData<J>,
}

impl<J: Adds> Play<PlainMap, View> for Unlocks<J> {
    ghost use Rattle.lane_stores.specs.Steps.{Unlocked};

    ghost then = { λ s m r n. Unlocked J.entries m n };
}

/// A step that looks at what was joined.
pub(crate) struct Looks;

impl Play<PlainMap, View> for Looks {
    ghost use Rattle.lane_stores.specs.Steps.{Looked};

    ghost then = { λ s m r n. Looked m n };
}

/// A view cut in two by the number of the next fork.
pub(crate) struct Forks;

impl Split<View> for Forks {
    ghost use Rattle.lane_stores.specs.Rule.{forked, child_of};

    ghost left = { forked };

    ghost right = { child_of };
}

/// A view that takes in another.
pub(crate) struct Ends;

impl Join<View> for Ends {
    ghost use Rattle.lane_stores.specs.Rule.{both_views, spent_view};

    ghost both = { both_views };

    ghost spent = { spent_view };
}
