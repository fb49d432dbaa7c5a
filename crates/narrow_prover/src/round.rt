// A round's polynomial from the folded tables: the sum over the places of the product of the tables' lines.
ghost use Rattle.std.specs.Prelude.{◌≡◌, ◌++◌, map, ◌+◌, ◌-◌, ◌*◌, ◌≤◌, ◌<◌, length, replicate};
ghost use Rattle.refusals.specs.Limits.{max_degree};
ghost use Rattle.polynomial.proofs.Padded.{total};
ghost use Rattle.polynomial.specs.Elements.{count_from};
ghost use Rattle.sumcheck.specs.Lent.{parts};
ghost use Rattle.sumcheck.proofs.RoundFolded.{term_at};
ghost use Rattle.narrow_field.specs.Narrow.{p};

use crate::folding::Folding;
use narrow_array::array::{added, line_times};
use narrow_array::round::COEFFICIENTS;

impl Folding {
    // The product of the tables' lines at place i.
    fn term(self, tables: &[u32], i: usize) -> [u32; COEFFICIENTS]
        requires { (i < self.half) × (self.count * self.places ≤ length tables.now) }
        ensures { result ≡ term_at p self.half (parts self.count self.places tables.now) i ++ replicate (max_degree - self.count) 0 }
    {
        let mut product: [u32; COEFFICIENTS] = [1, 0, 0, 0];
        for table in (0..self.count).rev() {
            let low = table * self.places + i;
            // Through `next`, here and in `round`: a call's array cannot be put straight into the one that the call has read.
            let next = line_times(product, tables[low], tables[low + self.half]);
            product = next;
        }
        product
    }

    // The sum of those products over the places of the lower half.
    pub(crate) fn round(self, tables: &[u32]) -> [u32; COEFFICIENTS]
        requires { self.count * self.places ≤ length tables.now }
        ensures { result ≡ total p (self.count + 1) (map (term_at p self.half (parts self.count self.places tables.now)) (count_from 0 self.half))
            ++ replicate (max_degree - self.count) 0 }
    {
        let mut sum = [0; COEFFICIENTS];
        for i in (0..self.half).rev() {
            let next = added(self.term(tables, i), sum);
            sum = next;
        }
        sum
    }
}
