//! Theorems that hold whatever is called: each is the contract of a function with nothing to do.
ghost use Rattle.machine.specs.Show.{ShowOrder};
ghost use Rattle.machine.specs.Table.{MeansWhatItHolds};
ghost use Rattle.machine.specs.declared.tables.Table.{Table};

/// Of any two shows one is earlier, or they are the same; what is earlier than an earlier show is earlier. One more cue behind
/// both keeps their order, whichever the cues are, and behind one and the same show the smaller cue comes first.
pub fn shows_stand_in_one_order()
    ensures { ShowOrder }
{}

/// What any table holds is a right description, and the table means it.
pub fn tables_mean_what_they_hold()
    ensures { (t : Table) → MeansWhatItHolds t }
{}
