//! The owner of the list.
ghost use Rattle.std.specs.Prelude.{◌≡◌, ◌++◌, ◌∷◌, [], MatchBool};
ghost use Rattle.growing_list.specs.Counted.{word_of};

use crate::beginning::Beginning;
use crate::rule::{Add, Counts, Naming, Nothing};
use logbook::{Offer, Seen, Start, Word};
use std::marker::{Model, PhantomData};

/// An empty list that has no name yet.
#[derive(Drop)]
pub struct Opened<E> {
    word: Word<E, u64, Counts>,
    seen: Seen<E, u64, Counts>,
    pub ghost empty: { seen.log ≡ [] },
    pub ghost word_is: { word ≡ word_of seen.book },
}

impl<E> Opened<E> {
    /// It takes no memory.
    pub fn new() -> Opened<E> {
        let (seen, mut pen, _second) = Seen::open(Start::alone(), 0, 0);
        Opened {
            word: Word::tracked(0, &mut pen),
            seen,
        }
    }

    /// The list under its name.
    pub fn named<J: Naming>(self) -> Grower<E, J>
        requires { self.seen.book ≡ J.book }
        ensures { result ≡ [] }
    {
        let Opened { word, seen } = self;
        Grower {
            word,
            whole: Beginning {
                count: 0,
                seen,
                of: PhantomData,
            },
        }
    }
}

/// The right to let the list grow, which contracts see as the list.
#[derive(Drop)]
pub struct Grower<E, J: Naming> {
    word: Word<E, u64, Counts>,
    whole: Beginning<E, J>,
}

impl<E, J: Naming> Model for Grower<E, J> {
    ghost use Rattle.std.specs.Prelude.{◌≡◌, List};
    ghost use Rattle.growing_list.specs.Counted.{word_of};

    ghost Value = { List E };

    ghost view = { λ g. g.whole };

    ghost invariant = { λ g. g.word ≡ word_of J.book };
}

impl<E, J: Naming> Grower<E, J> {
    /// All of the list, as a beginning. It takes no memory.
    pub fn whole(&self) -> Beginning<E, J>
        ensures { result ≡ self.now }
    {
        self.whole.again()
    }

    /// Adds the entry. `false` says that it wasn't added: that doesn't happen before the list has
    /// 2^64 - 1 entries, and no clause excludes it. It takes no memory.
    pub fn add(&mut self, entry: &E) -> bool
        ensures { MatchBool result (self.new ≡ self.old ++ entry.now ∷ []) (self.new ≡ self.old) }
    {
        let mut longer = self.whole.again();
        let count = longer.count;
        if count == u64::MAX {
            return false;
        }
        let mut offer: Offer<E, u64, Counts, Nothing> = longer.seen.plain::<Nothing, E, Add>(entry);
        let mut pen = longer.seen.no_pen();
        let found = self
            .word
            .compare_exchange::<Add, Nothing>(
                count,
                count + 1,
                &mut longer.seen,
                &mut offer,
                &mut pen,
            );
        if found != count {
            return false;
        }
        longer.count = count + 1;
        self.whole = longer;
        true
    }
}
