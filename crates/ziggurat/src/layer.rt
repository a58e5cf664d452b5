// A layer taken out of the lent tables.
ghost use Rattle.std.specs.Prelude.{◌≡◌, ◌-◌, ◌^◌, ◌<◌, length, slice_index};
ghost use Rattle.edge.specs.Edge.{layer_at};
ghost use Rattle.layer_tables.specs.Lent.{lent_tables};

use edge::Layer;
use layer_tables::LayerTables;

// Layer i of the tables. The first layer's chord starts at 1.0, whatever the first height is.
pub(crate) fn layer_at(tables: LayerTables, i: usize) -> Layer
    requires i_in_bounds { (0 < i) × (i < length tables.endpoints.now) × (i < length tables.heights.now) }
    requires i_bound { (slice_index tables.endpoints.now i < 2 ^ 32) × (slice_index tables.endpoints.now (i - 1) < 2 ^ 32) }
    ensures { result ≡ layer_at (lent_tables tables.entry) i }
{
    let above = tables.heights[i - 1];
    let top = if i == 1 { 1.0 } else { above };
    Layer {
        left: tables.endpoints[i - 1] as u32 as f64,
        right: tables.endpoints[i] as u32 as f64,
        above,
        below: tables.heights[i],
        top,
    }
}
