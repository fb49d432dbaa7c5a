// Folding tables by a challenge: the first variable is bound, the top bit of an index.
ghost use Rattle.std.specs.Prelude.{◌≡◌, ◌++◌, map, ◌+◌, ◌*◌, ◌≤◌, length, drop};
ghost use Rattle.sumcheck.specs.Folding.{fold};
ghost use Rattle.sumcheck.specs.Lent.{parts};
ghost use Rattle.sumcheck.proofs.Laid.{laid};
ghost use Rattle.sumcheck.proofs.FoldedParts.{folded_part};
ghost use Rattle.narrow_field.specs.Narrow.{p};

use crate::folding::Folding;
use narrow_tables::value::point_between;

// The lower half of a table becomes the table folded by r. This is the one folding step: whoever folds calls it.
// By place, since lower and upper place belong together; parted by `split_at_mut` the loop is no plainer.
fn fold_table(table: &mut [u32], half: usize, r: u32)
    requires { half + half ≤ length table.old }
    ensures { table.new ≡ fold p r half table.old ++ drop half table.old }
{
    for i in 0..half {
        table[i] = point_between(r, table[i], table[half + i]);
    }
}

impl Folding {
    // Each table is folded in its lower half.
    pub(crate) fn fold(self, tables: &mut [u32], r: u32)
        requires { self.count * self.places ≤ length tables.old }
        ensures { tables.new ≡ laid self.places (map (folded_part p r self.half) (parts self.count self.places tables.old)) tables.old }
    {
        for table in 0..self.count {
            let start = table * self.places;
            fold_table(&mut tables[start..start + self.places], self.half, r);
        }
    }
}
