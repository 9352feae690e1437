//! The laws, as contracts of functions that do nothing. The lemmas that prove them are public in `proofs/`.

ghost use Rattle.lnbd_stream.specs.Laws.{TwoPartsFeedAsOne, NoByteIsLost, AlikeStayAlike, AlikeAreShownTheSame, FactsLast, HeldBytesShowNothing, PassedOneByOne, WhatIsShownHasAFront, SizeMakesAFront, TheTraceCuts, AnyCutIsTaken, AnyCutIsShown, WhatIsWrittenIsRead, OnceStays, WantsStays, ChoiceStays, RestStays, EachByteStays, OnceDecides, WantsDecides, ChoiceDecides, RestDecides, WholeDecides, PartsAreRead, OnceFits, WantsFits, PlacesAreSteady};

/// A fact about what is known.
pub trait Fact {
    ghost holds: { Self → Type 0 };
}

/// What two ways of knowing have in common.
pub trait SameAs<T> {
    ghost same: { Self → T → Type 0 };
}

/// How bytes are cut into pieces changes nothing.
pub fn two_parts_feed_as_one<S, R>()
    ensures { TwoPartsFeedAsOne S R }
{}

/// No byte is lost, and none is taken twice.
pub fn no_byte_is_lost<S, R>()
    ensures { NoByteIsLost S R }
{}

/// Two ways of knowing to which the same is shown go on alike, whatever bytes come.
pub fn alike_go_on_alike<S: SameAs<T>, T, R>()
    ensures known { AlikeStayAlike S T R S.same }
    ensures shown { AlikeAreShownTheSame S T R S.same }
{}

/// A fact that each thing shown keeps holds after any bytes.
pub fn facts_last<S: Fact, R>()
    ensures { FactsLast S R S.holds }
{}

/// The bytes that are held show nothing yet.
pub fn held_bytes_show_nothing<S, R>()
    ensures { HeldBytesShowNothing S R }
{}

/// Bytes that are passed over one by one are entered one by one, and none is held.
pub fn passed_one_by_one<S: Fact, R>()
    ensures { PassedOneByOne S R S.holds }
{}

/// Bytes that show a thing have a front that shows it first, and that front is what is taken.
pub fn what_is_shown_has_a_front<S, R>()
    ensures { WhatIsShownHasAFront S R }
{}

/// A thing of a size that is shown at bytes of that size is shown there first.
pub fn size_makes_a_front<S, R>()
    ensures { SizeMakesAFront S R }
{}

/// Bytes can be cut into fronts: the things shown are such a cut, and what is held is its rest.
pub fn the_trace_cuts<S, R>()
    ensures { TheTraceCuts S R }
{}

/// However bytes are cut into fronts, the cut is what is taken of them.
pub fn any_cut_is_what_is_taken<S, R>()
    ensures taken { AnyCutIsTaken S R }
    ensures shown { AnyCutIsShown S R }
{}

/// What one side writes, one thing after another, the other reads, one thing after another, in whatever pieces it comes.
pub fn what_is_written_is_read<S, R, Q>()
    ensures { WhatIsWrittenIsRead S R Q }
{}

/// What is shown stays, whatever follows: word by word of a grammar.
pub fn words_stay<A, R>()
    ensures once { OnceStays R }
    ensures wants { WantsStays R }
    ensures choice { ChoiceStays A R }
    ensures rest { RestStays R }
    ensures each_byte { EachByteStays R }
{}

/// So many bytes decide what is seen of a thing: word by word of a grammar.
pub fn first_bytes_decide<A, B, R>()
    ensures once { OnceDecides A R }
    ensures wants { WantsDecides A R }
    ensures choice { ChoiceDecides A B R }
    ensures rest { RestDecides A R }
    ensures whole { WholeDecides A R }
{}

/// A part of the first bytes is read of them alone.
pub fn parts_are_read()
    ensures { PartsAreRead }
{}

/// Nothing greater than the bytes is shown: word by word of a grammar.
pub fn words_fit<R>()
    ensures once { OnceFits R }
    ensures wants { WantsFits R }
{}

/// Rules are steady where the grammar of each place is.
pub fn places_are_steady<S, P, R>()
    ensures { PlacesAreSteady S P R }
{}
