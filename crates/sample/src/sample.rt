// The interpolated log-odds at a point, and their gradient: multilinear sums in a fixed order of operations. A weight
// starts at 1 and is multiplied axes ascending; a sum starts at 0 and adds corners ascending. Corners stand in edges
// along axis 0, two edges in a square, two squares in a cube, so that three axes are more calls of what two axes call.
// Which stencil contains a point is `stencil`'s to say, and `samples` joins the two.
ghost use Rattle.std.specs.Prelude.{◌≡◌, ◌+◌, ◌<◌, true, [], ◌∷◌, length};
ghost use Rattle.std.specs.Float.{binary64};
ghost use Rattle.rules.specs.Floats.{zero_f, one_f};
ghost use Rattle.rules.specs.Coordinates.{corners, weighed, value_from};
ghost use Rattle.types.specs.Points.{vector2, vector3};
ghost use Rattle.sample.specs.Sampling.{edge_of, square_of, cube_of, on_edge, on_square, on_cube};
ghost use Rattle.sample.specs.Sampling.{odds_from, gradient_over};
ghost use Rattle.sample.specs.Sampling.{at_edge, at_square, edge_times, square_times, edge_sum, square_sum};
ghost use Rattle.sample.specs.Sampling.{along_edges, along_squares, between_edges, between_pairs};

use types::{Vector2, Vector3};

// The two cells of a stencil along axis 0: their odds, or their weights, or differences of odds.
#[derive(Clone, Copy)]
pub struct Edge {
    pub low: f64,
    pub high: f64,
}

// The edges on the low and on the high side of the next axis.
#[derive(Clone, Copy)]
pub struct Square {
    pub low: Edge,
    pub high: Edge,
}

#[derive(Clone, Copy)]
pub struct Cube {
    pub low: Square,
    pub high: Square,
}

// The odds of a stencil's corners, each read once. That the last of them is a cell, and so each of them, is required:
// the caller has it of the stencil that it found.
fn edge_at(odds: &[f64], at: usize) -> Edge
    requires { at + 1 < length odds.now }
    ensures { on_edge (edge_of result) ≡ odds_from odds.now at (1 ∷ []) }
{
    Edge {
        low: odds[at],
        high: odds[at + 1],
    }
}

// As above, two rows.
pub(crate) fn square_at(odds: &[f64], at: usize, row: usize) -> Square
    requires { at + row + 1 < length odds.now }
    ensures { on_square (square_of result) ≡ odds_from odds.now at (1 ∷ row ∷ []) }
{
    Square {
        low: edge_at(odds, at),
        high: edge_at(odds, at + row),
    }
}

// As above, two planes.
pub(crate) fn cube_at(odds: &[f64], at: usize, row: usize, plane: usize) -> Cube
    requires { at + plane + row + 1 < length odds.now }
    ensures { on_cube (cube_of result) ≡ odds_from odds.now at (1 ∷ row ∷ plane ∷ []) }
{
    Cube {
        low: square_at(odds, at, row),
        high: square_at(odds, at + plane, row),
    }
}

// The weights of the corners: each starts at 1, and is multiplied by one side of each axis.
fn edge_weights(x: f64) -> Edge
    ensures { edge_of result ≡ at_edge (weighed binary64 one_f (x ∷ [])) }
{
    Edge {
        low: 1.0 * (1.0 - x),
        high: 1.0 * x,
    }
}

fn square_weights(x: f64, y: f64) -> Square
    ensures { square_of result ≡ at_square (weighed binary64 one_f (x ∷ y ∷ [])) }
{
    let w = edge_weights(x);
    Square {
        low: edge_times(w, 1.0 - y),
        high: edge_times(w, y),
    }
}

// Weights, on one side of the next axis.
fn edge_times(w: Edge, side: f64) -> Edge
    ensures { edge_of result ≡ edge_times binary64 (edge_of w) side }
{
    Edge {
        low: w.low * side,
        high: w.high * side,
    }
}

fn square_times(w: Square, side: f64) -> Square
    ensures { square_of result ≡ square_times binary64 (square_of w) side }
{
    let low = w.low;
    let high = w.high;
    Square {
        low: edge_times(low, side),
        high: edge_times(high, side),
    }
}

// A sum, and what the corners add to it, ascending.
fn edge_sum(sum: f64, w: Edge, odds: Edge) -> f64
    ensures { result ≡ edge_sum binary64 sum (edge_of w) (edge_of odds) }
{
    sum + w.low * odds.low + w.high * odds.high
}

fn square_sum(sum: f64, w: Square, odds: Square) -> f64
    ensures { result ≡ square_sum binary64 sum (square_of w) (square_of odds) }
{
    let w_low = w.low;
    let w_high = w.high;
    let low = odds.low;
    let high = odds.high;
    edge_sum(edge_sum(sum, w_low, low), w_high, high)
}

// The interpolated value over the corners of one axis, of two and of three.
fn value1(x: f64, edge: Edge) -> f64
    ensures { result ≡ value_from binary64 zero_f (x ∷ []) (on_edge (edge_of edge)) (corners 1) }
{
    edge_sum(0.0, edge_weights(x), edge)
}

pub fn value2(x: f64, y: f64, square: Square) -> f64
    ensures { result ≡ value_from binary64 zero_f (x ∷ y ∷ []) (on_square (square_of square)) (corners 2) }
{
    square_sum(0.0, square_weights(x, y), square)
}

pub fn value3(x: f64, y: f64, z: f64, cube: Cube) -> f64
    ensures { result ≡ value_from binary64 zero_f (x ∷ y ∷ z ∷ []) (on_cube (cube_of cube)) (corners 3) }
{
    let w = square_weights(x, y);
    let low = cube.low;
    let high = cube.high;
    let sum = square_sum(0.0, square_times(w, 1.0 - z), low);
    square_sum(sum, square_times(w, z), high)
}

// The differences, high less low: along edges, which lie along axis 0, and from one edge to another across a later
// axis.
fn along_edges(square: Square) -> Edge
    ensures { edge_of result ≡ along_edges binary64 (square_of square) }
{
    let low = square.low;
    let high = square.high;
    Edge {
        low: low.high - low.low,
        high: high.high - high.low,
    }
}

fn along_squares(low: Square, high: Square) -> Square
    ensures { square_of result ≡ along_squares binary64 (square_of low) (square_of high) }
{
    Square {
        low: along_edges(low),
        high: along_edges(high),
    }
}

fn between_edges(low: Edge, high: Edge) -> Edge
    ensures { edge_of result ≡ between_edges binary64 (edge_of low) (edge_of high) }
{
    Edge {
        low: high.low - low.low,
        high: high.high - low.high,
    }
}

// From a to b, and from c to d.
fn between_pairs(a: Edge, b: Edge, c: Edge, d: Edge) -> Square
    ensures { square_of result ≡ between_pairs binary64 (edge_of a) (edge_of b) (edge_of c) (edge_of d) }
{
    Square {
        low: between_edges(a, b),
        high: between_edges(c, d),
    }
}

// The gradient: along each axis, the value of the differences across it, over the axes left.
pub fn gradient2(x: f64, y: f64, square: Square) -> Vector2
    ensures { vector2 result ≡ gradient_over binary64 (x ∷ y ∷ []) (on_square (square_of square)) }
{
    let low = square.low;
    let high = square.high;
    Vector2 {
        x: value1(y, along_edges(square)),
        y: value1(x, between_edges(low, high)),
    }
}

pub fn gradient3(x: f64, y: f64, z: f64, cube: Cube) -> Vector3
    ensures { vector3 result ≡ gradient_over binary64 (x ∷ y ∷ z ∷ []) (on_cube (cube_of cube)) }
{
    let low = cube.low;
    let high = cube.high;
    let a = low.low;
    let b = low.high;
    let c = high.low;
    let d = high.high;
    Vector3 {
        x: value2(y, z, along_squares(low, high)),
        y: value2(x, z, between_pairs(a, b, c, d)),
        z: value2(x, y, between_pairs(a, c, b, d)),
    }
}
