//! The one rule of all three queues, and what each step over them tells.
ghost use Rattle.std.specs.Prelude.{◌≡◌, ◌<◌, ◌^◌, ⊤, length};
ghost use Rattle.lane_mail.specs.declared.lane.Lane.TheVariants.{First, Second};

use crate::hand::Hand;
use crate::item::Item;
use crate::mark::Mark;
use crossbeam_queue::protocol::{Join, Lesson, Outcome, Protocol, Split};
use crossbeam_queue::{Pass, RuledArrayQueue, RuledSegQueue, SegPass};

/// The queue of a lane's items.
pub type Items = RuledSegQueue<Item, Hand<Item>, ItemRule>;

/// The queue of the end marks, which has room for both.
pub type Marks = RuledArrayQueue<Mark, Hand<Mark>, MarkRule>;

pub type ItemPass = SegPass<Item, Hand<Item>>;

pub type MarkPass = Pass<Mark, Hand<Mark>>;

/// The rule of the items.
pub struct ItemRule;

impl Protocol<Item, Hand<Item>> for ItemRule {
    ghost use Rattle.lane_mail.specs.Lanes.{item_lane};
    ghost use Rattle.lane_mail.specs.Hands.{opening};
    ghost use Rattle.lane_mail.specs.Carried.{Carries};

    ghost holds = { Carries item_lane (2 ^ 61) };

    ghost first = { opening };
}

/// The rule of the end marks.
pub struct MarkRule;

impl Protocol<Mark, Hand<Mark>> for MarkRule {
    ghost use Rattle.lane_mail.specs.Lanes.{mark_lane};
    ghost use Rattle.lane_mail.specs.Hands.{opening};
    ghost use Rattle.lane_mail.specs.Carried.{Carries};

    ghost holds = { Carries mark_lane 1 };

    ghost first = { opening };
}

/// The first lane gets a pass of its own.
pub struct FirstLane;

impl<T> Split<Hand<T>> for FirstLane {
    ghost use Rattle.lane_mail.specs.Hands.{without, sender};

    ghost left = { without First };

    ghost right = { λ v. sender First v.sent };
}

/// The second lane gets a pass of its own.
pub struct SecondLane;

impl<T> Split<Hand<T>> for SecondLane {
    ghost use Rattle.lane_mail.specs.Hands.{without, sender};

    ghost left = { without Second };

    ghost right = { λ v. sender Second v.sent };
}

/// The other lane gets a pass that may do nothing, and tells it which queue this is.
pub struct Beside;

impl<T> Split<Hand<T>> for Beside {
    ghost use Rattle.lane_mail.specs.Hands.{spent};

    ghost left = { λ v. v };

    ghost right = { λ _. spent };
}

/// Whoever takes learns what the other sent.
pub struct Gather;

impl<T> Join<Hand<T>> for Gather {
    ghost use Rattle.lane_mail.specs.Hands.{gathered, spent};

    ghost both = { gathered };

    ghost spent = { spent };
}

/// One more was sent.
pub struct Put;

impl<T> Outcome<T, Hand<T>> for Put {
    ghost use Rattle.lane_mail.specs.Hands.{sent_also};

    ghost then = { λ v x w. w ≡ sent_also v x };
}

impl<T> Lesson<T, Hand<T>> for Put {
    ghost fact = { λ v items. length items < 2 };
}

/// One more was taken.
pub struct Get;

impl Outcome<Item, Hand<Item>> for Get {
    ghost use Rattle.lane_mail.specs.Lanes.{item_lane};
    ghost use Rattle.lane_mail.specs.Carried.{Takes};

    ghost then = { Takes item_lane (2 ^ 61) };
}

impl Outcome<Mark, Hand<Mark>> for Get {
    ghost use Rattle.lane_mail.specs.Lanes.{mark_lane};
    ghost use Rattle.lane_mail.specs.Carried.{Takes};

    ghost then = { Takes mark_lane 1 };
}

impl<T> Lesson<T, Hand<T>> for Get {
    ghost fact = { λ v items. ⊤ };
}

/// What was taken of a lane and what the queue holds of it is what the lane sent.
pub struct Whole;

impl Lesson<Item, Hand<Item>> for Whole {
    ghost use Rattle.lane_mail.specs.Lanes.{item_lane};
    ghost use Rattle.lane_mail.specs.Carried.{IsWhole};

    ghost fact = { IsWhole item_lane };
}

impl Lesson<Mark, Hand<Mark>> for Whole {
    ghost use Rattle.lane_mail.specs.Lanes.{mark_lane};
    ghost use Rattle.lane_mail.specs.Carried.{IsWhole};

    ghost fact = { IsWhole mark_lane };
}
