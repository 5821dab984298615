// A sheet that was read, and what follows from it.

ghost use Rattle.std.specs.Prelude.{◌≡◌, ℕ};
ghost use Rattle.graph.specs.Excluding.{excluding};
ghost use Rattle.graph.specs.RowBits.{row_bit};

use crate::exclusions::Exclusions;
use crate::read_sheet::ReadSheet;

// The sheet and its exclusions: bit y of row x says that x and y exclude each other.
#[derive(Drop)]
pub struct Graph {
    pub(crate) sheet: ReadSheet,
    pub(crate) exclusions: Exclusions,
    ghost tied: { (x y : ℕ) → row_bit exclusions.rows.items x y ≡ excluding sheet.links.order.rows sheet.objects.list.items x y },
}
