ghost use Rattle.std.specs.Prelude.{Some, refl};
ghost use Rattle.std.specs.Ordering.{eq_by_cmp};
ghost use Rattle.std.specs.Cmp.{partial_equiv_from_equiv, eq_by_cmp_equiv, po};
ghost use Rattle.kh_term.specs.Lemmas.Total.{cmp_terms, terms_total};

use crate::comparing::compare;
use crate::term::Term;
use std::cmp::Ordering;

impl PartialEq for Term {
    ghost eq = { eq_by_cmp cmp_terms };

    ghost laws = { partial_equiv_from_equiv (eq_by_cmp_equiv terms_total) };

    fn eq(&self, other: &Self) -> bool {
        self.cmp(other).is_eq()
    }
}

impl Eq for Term {
    ghost laws = { eq_by_cmp_equiv terms_total };
}

impl PartialOrd for Term {
    ghost partial_cmp = { λ x y. Some (cmp_terms x y) };

    ghost laws = { po terms_total (λ x y. refl) };

    fn partial_cmp(&self, other: &Self) -> Option<Ordering> {
        Some(self.cmp(other))
    }
}

/// The order of terms.
impl Ord for Term {
    ghost cmp = { cmp_terms };

    ghost total = { terms_total };

    ghost matches_partial_cmp = { λ x y. refl };

    ghost matches_eq = { λ x y. refl };

    fn cmp(&self, other: &Self) -> Ordering {
        compare(self, other)
    }
}
