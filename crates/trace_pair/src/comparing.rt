//! How two sessions compare, by the rows that set them side by side.

ghost use Rattle.std.specs.Prelude.{◌≡◌};
ghost use Rattle.uds_difference.specs.Laws.{first_change};
ghost use Rattle.trace_pair.specs.Compared.{comparison_by};

use shown_rows::is_change;
use trace_canon::Comparison;
use uds_difference::Row;

/// What two sessions are to each other that these rows set side by side: where some row is not the same, they differ
/// first at the first of these.
pub(crate) fn comparison_of(rows: &[Row]) -> Comparison
    ensures { result ≡ comparison_by (first_change rows.now) }
{
    'rows: for k in 0..rows.len() {
        if is_change(rows[k]) {
            return Comparison::Different { item: k };
        }
    }
    Comparison::Same
}
