//! The order of paths: by the bytes of the whole path, as the entries of an index are listed.

use crate::path::Path;
use std::cmp::Ordering;

impl PartialEq for Path {
    ghost use Rattle.std.specs.{Prelude.{nat_eq}, Cmp.{partial_equiv_from_equiv}};
    ghost use Rattle.std.specs.Cmp.Lexicographic.{pointwise, lists_equiv, nat_list_eq_equiv};

    ghost eq = { pointwise (pointwise nat_eq) };

    ghost laws = { partial_equiv_from_equiv (lists_equiv nat_list_eq_equiv) };

    fn eq(&self, other: &Path) -> bool {
        self.as_bytes() == other.as_bytes()
    }
}

impl Eq for Path {
    ghost use Rattle.std.specs.Cmp.Lexicographic.{lists_equiv, nat_list_eq_equiv};

    ghost laws = { lists_equiv nat_list_eq_equiv };
}

impl PartialOrd for Path {
    ghost use Rattle.std.specs.Ordering.{as_partial_cmp};
    ghost use Rattle.std.specs.Cmp.{partial_order_from_own_ties, partial_order_from_total};
    ghost use Rattle.git_paths.specs.Order.{path_cmp, path_cmp-total, path_cmp-ties};

    ghost partial_cmp = { as_partial_cmp path_cmp };

    ghost laws = { partial_order_from_own_ties (partial_order_from_total path_cmp-total)
        path_cmp-ties };

    fn partial_cmp(&self, other: &Path) -> Option<Ordering> {
        Some(self.cmp(other))
    }
}

impl Ord for Path {
    ghost use Rattle.std.specs.Prelude.{refl};
    ghost use Rattle.git_paths.specs.Order.{path_cmp, path_cmp-total, path_cmp-ties};

    ghost cmp = { path_cmp };

    ghost total = { path_cmp-total };

    ghost matches_partial_cmp = { λ a b. refl };

    ghost matches_eq = { path_cmp-ties };

    fn cmp(&self, other: &Path) -> Ordering {
        self.as_bytes().cmp(other.as_bytes())
    }
}
