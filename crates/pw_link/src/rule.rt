//! The rule of a lane's channel, and the kinds of atomic step that are made on it: to send, to take, to
//! split a pass and to join one.
ghost use Rattle.std.specs.Prelude.{◌≡◌, ◌<◌, Some, None, length, ⊤};
ghost use Rattle.pw_link.specs.Rule.{note, longer};

use crossbeam_channel::protocol::{Join, Lesson, Outcome, Protocol, Split};
use std::collections::LinkedList;

/// What a pass knows of the channel: the primary's what it took, the backup's what was taken from it, and a receipt's the
/// message that it holds for it. No value of it is made.
pub struct PassNote<M> {
    pub took: Option<LinkedList<M>>,
    pub got: Option<LinkedList<M>>,
    pub due: Option<M>,
}

/// The rule: what was taken from the channel is a prefix of what it took, and it holds the rest.
pub struct InOrder;

impl<M> Protocol<M, PassNote<M>> for InOrder {
    ghost use Rattle.std.specs.Prelude.{[], Some, None};
    ghost use Rattle.pw_link.specs.Rule.{note, IsChannelInOrder};

    ghost holds = { IsChannelInOrder };

    ghost first = { note (Some []) (Some []) None };
}

/// A pass is split and joined: what is known of what the channel took stays with the primary, and the rest goes to the
/// other pass, and from there to the backup.
pub struct PassSplit;

impl<M> Split<PassNote<M>> for PassSplit {
    ghost use Rattle.std.specs.Prelude.{None};
    ghost use Rattle.pw_link.specs.Rule.{note};

    ghost left = { λ v. note v.took None None };

    ghost right = { λ v. note None v.got v.due };
}

impl<M> Join<PassNote<M>> for PassSplit {
    ghost use Rattle.std.specs.Prelude.{None};
    ghost use Rattle.pw_link.specs.Rule.{note};

    ghost both = { λ v w. note v.took v.got w.due };

    ghost spent = { note None None None };
}

/// A message is added at the back, and the primary's pass knows it and that the channel holds it.
pub struct Sends;

impl<M> Outcome<M, PassNote<M>> for Sends {
    ghost then = { λ v x w. w ≡ note (longer v.took x) v.got (Some x) };
}

impl<M> Lesson<M, PassNote<M>> for Sends {
    ghost fact = { λ v items. ⊤ };
}

/// The message at the front is removed, which is the one that the backup's pass knows, and so the channel is not empty.
pub struct Takes;

impl<M> Outcome<M, PassNote<M>> for Takes {
    ghost then = { λ v x w. (v.due ≡ Some x) × (w ≡ note v.took (longer v.got x) None) };
}

impl<M> Lesson<M, PassNote<M>> for Takes {
    ghost fact = { λ v items. 0 < length items };
}
