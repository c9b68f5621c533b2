//! The forms line and plane in the words of geometry.
ghost use Rattle.dk_forms.specs.Plane.Geometry.{BrokenPointsHaveNoLine, BrokenPointsHaveNoPlane, LinesHaveAllPoints, PlanesHaveAllPoints, PointsHaveOneLine, PointsHaveOnePlane};

/// The line of points is the one on which all of them are. Where their state is Broken there is none.
pub fn lines_go_through_all_points()
    ensures all { LinesHaveAllPoints }
    ensures one { PointsHaveOneLine }
    ensures none { BrokenPointsHaveNoLine }
{}

/// The plane of points is the one in which all of them are. Where their state is Broken there is none.
pub fn planes_go_through_all_points()
    ensures all { PlanesHaveAllPoints }
    ensures one { PointsHaveOnePlane }
    ensures none { BrokenPointsHaveNoPlane }
{}
