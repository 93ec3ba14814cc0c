//! What holds of each set of objects, apart from the code.
ghost use Rattle.pool_config.specs.Laws.{AcceptedAreReadWhole, AllAreCompiledRight};
ghost use Rattle.pool_config.specs.Laws.{CommunitiesAreRead, LargesAreRead};
ghost use Rattle.pool_config.specs.Laws.{LargeTextsAreRead, NamesAreKept, NumbersAreRead};
ghost use Rattle.pool_config.specs.Laws.{RemovesTakeOut, SetsPutInPlace};

/// A set is compiled to a fault exactly where that is its first one, and else to its lists.
pub fn objects_are_compiled()
    ensures { AllAreCompiledRight }
{}

/// Each object is held under its own name, whatever calls a set has seen.
pub fn names_are_kept()
    ensures { NamesAreKept }
{}

/// The texts that have a number are those of the form `A:B`.
pub fn numbers_are_read()
    ensures { NumbersAreRead }
{}

/// The numbers of an advertisement's communities ascend, each once, and are exactly those that its
/// texts stand for.
pub fn communities_are_read()
    ensures { CommunitiesAreRead }
{}

/// The texts that are large communities are those of the form `large:A:B:C`, and those of an
/// advertisement ascend, each once, and are exactly those that its texts stand for.
pub fn larges_are_read()
    ensures texts { LargeTextsAreRead }
    ensures lists { LargesAreRead }
{}

/// Where there is no fault, every entry, every selector and every community is read.
pub fn accepted_are_read_whole()
    ensures { AcceptedAreReadWhole }
{}

/// `ObjectSet::set` puts the object in place of the one of its kind and name, and every other object stays.
pub fn sets_put_in_place()
    ensures { SetsPutInPlace }
{}

/// `ObjectSet::remove` takes out the object of its kind and name, and every other object stays.
pub fn removes_take_out()
    ensures { RemovesTakeOut }
{}
