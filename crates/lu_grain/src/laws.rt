//! Laws of components that differ in `local` alone. Their functions do nothing.

ghost use Rattle.lu_grain.specs.Laws.{BeginningsAlike, CertificatesAgree, ConflictsToo, DecidesToo, EndsToo, FailureRefutesToo, GoodToo, HopelessAlike, LinearizableAlike, LinearizableToo, LosesHopeToo, NoLonger, PassesEnd, PassesToo, SameEnds, SameStart, SameWay, SerialAlike, SetsAlike, SettlesFurther};

/// Each ended schedule, of any length and from any state, has one with any other number of local
/// instructions to a move: with the same history, to the same cells, locks and threads, complete or
/// stuck as it is. With more of them to a move it is no longer. Where all schedules of the one come
/// to an end within a bound, so do all of the other, within a greater one.
pub fn same_ends()
    ensures ends { SameEnds }
    ensures shorter { NoLonger }
    ensures way { SameWay }
    ensures bounded { EndsToo }
{}

/// Where both setups settle, both start with the same cells and locks; and a setup that settles
/// does so with more local instructions to a move.
pub fn same_start()
    ensures start { SameStart }
    ensures settles { SettlesFurther }
{}

/// Both have the same serial histories, and so the same beginnings of these. What is learnt of them
/// within two bounds never contradicts: a serial run may be cut of the one and not of the other,
/// since bounds count moves.
pub fn same_serial_histories()
    ensures histories { SerialAlike }
    ensures beginnings { BeginningsAlike }
    ensures sets { SetsAlike }
    ensures conflicts { ConflictsToo }
{}

/// Where each ended schedule of the one is good for a set of serial histories, so is each of the
/// other; so where the one is linearizable, the other is. A check of the one that passes, with no
/// schedule cut, says that all schedules of the other come to an end, and are good; one that fails
/// says that by no deterministic set the other is linearizable.
pub fn linearizable_too()
    ensures good { GoodToo }
    ensures linearizable { LinearizableToo }
    ensures exactly { LinearizableAlike }
    ensures passes { PassesToo }
    ensures end { PassesEnd }
    ensures fails { FailureRefutesToo }
{}

/// From a state no schedule of the one ends exactly where none of the other does; and where a
/// schedule of the one leads to such a state, one of the other does.
pub fn hopeless_too()
    ensures state { HopelessAlike }
    ensures schedule { LosesHopeToo }
{}

/// What a certificate of the one decides, it decides of the other, but that a livelock has a
/// schedule of its own there; and a certificate of the one and one of the other never contradict,
/// whatever their limits.
pub fn certified_too()
    ensures decides { DecidesToo }
    ensures agree { CertificatesAgree }
{}
