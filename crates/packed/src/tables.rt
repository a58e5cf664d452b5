// The tables that a draw of trits looks into.
ghost use Rattle.packed.specs.Tables.{TritTables, TritTables-prop};

use crate::trits::{TritTable, TritsBy};
use output::Output;

// The pairs of three values, and where the trits of a byte stand among them: by the table of groups, or by division.
#[derive(Drop)]
pub(crate) struct Tables<'a, T: Output> {
    pub pairs: &'a [T],
    pub groups: &'a TritTable,
    pub by: TritsBy,
    ghost tables: { TritTables (T.natural 0) pairs.now groups.now } by { TritTables-prop T.code (T.natural 0) pairs.now groups.now },
}
