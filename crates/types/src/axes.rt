// Two axes or three: the kinds of value that belong to extents, each as the rules' list of a number an axis, axis 0
// first. What is done with them is the same for both wherever no axis is named.
ghost use Rattle.std.specs.Prelude.{◌≡◌, ◌≤◌, refl, ℕ, ℤ, List, length, Float};
ghost use Rattle.rules.specs.OneBeam as Beam;
ghost use Rattle.rules.specs.TheGridAndItsBounds as Grid;
ghost use Rattle.types.specs.Beams.{beam2, beam3};
ghost use Rattle.types.specs.Models.{model_of, bands_of};
ghost use Rattle.types.specs.Points.{cell2, cell3, extents2, extents3, point2, point3, vector2, vector3, two_few, three_few};

use crate::beams::{ScanBeam2, ScanBeam3};
use crate::model::{Bands, Model};
use crate::points::{Cell2, Cell3, Extents2, Extents3, Point2, Point3, Vector2, Vector3};

pub trait Axes: Copy {
    type Point: Copy;

    type Vector: Copy;

    type Cell: Copy;

    type Model: Copy;

    type Beam: Copy;

    ghost extents: { Self → List ℕ };

    ghost point: { Self.Point → List Float };

    ghost vector: { Self.Vector → List Float };

    ghost cell: { Self.Cell → List ℤ };

    // the inverse sensor model, laid on a map of these extents
    ghost model_of: { Self → Self.Model → Grid.Model };

    ghost beam_of: { Self.Beam → Beam.Beam };

    // how many axes
    const AXES: usize;

    ghost AXES: { ℕ };

    ghost axes_each: { (e : Self) → length (extents e) ≡ AXES };

    ghost few_axes: { AXES ≤ 3 };

    // a number for each axis
    ghost index_each: { (e : Self) (c : Self.Cell) → length (cell c) ≡ length (extents e) };

    ghost coordinate_each: { (e : Self) (p : Self.Point) → length (point p) ≡ length (extents e) };
}

impl Axes for Extents2 {
    type Point = Point2;

    type Vector = Vector2;

    type Cell = Cell2;

    type Model = Model;

    type Beam = ScanBeam2;

    ghost extents = { extents2 };

    ghost point = { point2 };

    ghost vector = { vector2 };

    ghost cell = { cell2 };

    ghost model_of = { λ e m. model_of m };

    ghost beam_of = { beam2 };

    const AXES: usize = 2;

    ghost AXES = { 2 };

    ghost axes_each = { λ e. refl };

    ghost few_axes = { two_few };

    ghost index_each = { λ e c. refl };

    ghost coordinate_each = { λ e p. refl };
}

impl Axes for Extents3 {
    type Point = Point3;

    type Vector = Vector3;

    type Cell = Cell3;

    type Model = Bands;

    type Beam = ScanBeam3;

    ghost extents = { extents3 };

    ghost point = { point3 };

    ghost vector = { vector3 };

    ghost cell = { cell3 };

    ghost model_of = { bands_of };

    ghost beam_of = { beam3 };

    const AXES: usize = 3;

    ghost AXES = { 3 };

    ghost axes_each = { λ e. refl };

    ghost few_axes = { three_few };

    ghost index_each = { λ e c. refl };

    ghost coordinate_each = { λ e p. refl };
}
