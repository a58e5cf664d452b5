// Inner crate of primus_distr: the acceptance test on a layer's edge, each f64 operation in the order of `sample` and of the preparation in `new`.
#![tactic(auto)]

ghost use Rattle.std.specs.Prelude.{◌≡◌};
ghost use Rattle.distr.specs.Layered.{float};
ghost use Rattle.edge.specs.Edge.{slope_of, line_of, accepts_on};

// A layer: its edge reaches from left to right, its heights are above and below, and its chord starts at top.
#[derive(Clone, Copy, Debug, PartialEq)]
pub struct Layer {
    pub left: f64,
    pub right: f64,
    pub above: f64,
    pub below: f64,
    pub top: f64,
}

// The slope of a layer's chord; a collapsed interval has 0.0.
fn slope(layer: Layer) -> f64
    ensures { result ≡ slope_of layer }
{
    let width = layer.right - layer.left;
    if width == 0.0 {
        0.0
    } else {
        (layer.below - layer.top) / width
    }
}

// The chord's height over the layer's base at a point; a collapsed interval has -1.0 instead of a chord.
fn line(layer: Layer, at: f64) -> f64
    ensures { result ≡ line_of layer at }
{
    if layer.right == layer.left {
        -1.0
    } else {
        slope(layer) * (at - layer.right)
    }
}

// Whether a magnitude on the edge is accepted: the word is a height in the layer, and pdf the curve's value there. Where the layer lies
// wholly on one side of the deviation the chord decides most words.
pub fn accepts(deviation: f64, layer: Layer, magnitude: u32, pdf: f64, word: u32) -> bool
    ensures { result ≡ accepts_on deviation layer (float magnitude) pdf (float word) }
{
    let at = magnitude as f64;
    let height = (layer.above - layer.below) * (word as f64);
    let room = 4294967296.0 * (pdf - layer.below);
    if layer.right + 1.0 <= deviation {
        (height <= 4294967296.0 * line(layer, at)) | (height <= room)
    } else if deviation <= layer.left {
        !((height >= 4294967296.0 * line(layer, at - 1.0)) | (height > room))
    } else {
        height <= room
    }
}
