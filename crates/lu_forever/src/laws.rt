//! Laws of these certificates. Their function does nothing.

ghost use Rattle.lu_forever.specs.Certified.{LinearizableNeverOffends, OneRoundDecides};

/// Where all unrolled matrices are linearizable, no serial run of one of them offends. Nor does any
/// schedule of one fail: that is a law of lu_always. For one round, the prefixes of the serial
/// histories then decide as the set of a certificate does.
pub fn forever_laws()
    ensures never { LinearizableNeverOffends }
    ensures decides { OneRoundDecides }
{}
