//! What holds of each choice from the pools of a configuration, whoever has what.
ghost use Rattle.choice_laws.specs.Laws.{OptionsAre, ExhaustedIsFull, NoPoolIsOpen};
ghost use Rattle.choice_laws.specs.Laws.{PendingIsInVain};
ghost use Rattle.choice_laws.specs.Laws.{KeptIsWhole, WholeIsKept, NewIsOfTheFirstOption};
ghost use Rattle.choice_laws.specs.Laws.{NewIsOfTheFirstPool, NewCouldBeHad};

/// The options of a service are its families; where it prefers two, these, then the first alone,
/// then the second alone.
pub fn options_are()
    ensures { OptionsAre }
{}

/// Where the pools are exhausted, none that the service may use has a usable address of each family
/// of any option; where none is there, it may use none. Whatever it waits for, there are no
/// addresses that it could be given.
pub fn exhausted_is_full()
    ensures full { ExhaustedIsFull }
    ensures none { NoPoolIsOpen }
    ensures vain { PendingIsInVain }
{}

/// What is kept are all the recorded addresses. They are kept exactly where the service is handled,
/// they are of an option, are all usable in one pool that is open to it, and are those that it asks
/// for.
pub fn kept_is_whole()
    ensures whole { KeptIsWhole }
    ensures kept { WholeIsKept }
{}

/// A new record has addresses that the service could be given. Where none were asked for it has one
/// of each family; or, where two are preferred and no pool that the service may use has usable
/// addresses of both, of the first alone; and where none has one of the first either, of the second
/// alone. Its pool stands before the others that have such addresses.
pub fn new_is_of_the_first_option()
    ensures first { NewIsOfTheFirstOption }
    ensures pool { NewIsOfTheFirstPool }
    ensures could { NewCouldBeHad }
{}
