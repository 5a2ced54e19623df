//! Laws of what a journal's bytes hold: each is what a call with no effect ensures.

ghost use Rattle.zj_area.specs.Laws.{OneReading, WholeOrDamaged};

use zj_tx::laws::{gate_is_open, one_spelling};

/// A journal holds one list of records, with one end.
pub fn one_reading()
    ensures { OneReading }
{
    one_spelling();
    gate_is_open();
}

/// A journal that holds records isn't damaged.
pub fn whole_or_damaged()
    ensures { WholeOrDamaged }
{
    one_spelling();
    gate_is_open();
}
